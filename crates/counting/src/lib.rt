// What masks score by adjacency words (RULES 3). Only edges are visited, each from its greater number. An edge with an end that is not set counts for nothing. The
// decomposition counts its result by this; the pass over pairs stands on what a pair's masks say, and scoring on what the counts cost.
#![tactic(auto)]

ghost use Rattle.std.specs.Prelude.{◌≡◌, ◌<◌, ◌≤◌, length};
ghost use Rattle.rules.specs.declared.layer.Edge.{Edge};
ghost use Rattle.rules.specs.Basics.{given, sum_to};
ghost use Rattle.rules.specs.Score.{score_of, cost_of};
ghost use Rattle.adjacency.specs.Adjacency.{word_graph};
ghost use Rattle.counting.specs.Counted.{one_mask, two_masks, edge_counts, edge_in};

use adjacency::EdgeSets;
use bitset::{BitSet, Matrix};
use rules::{Edge, Score, stated_mask};

// Whether two masks are set and one.
#[tactic(auto, using(crate::proofs::ScoreLaws::one_equal, crate::proofs::ScoreLaws::one_other))]
pub fn on_one_mask(a: u8, b: u8) -> bool
    ensures { result ≡ one_mask a b }
{
    a == b && stated_mask(b).is_some()
}

// Whether two masks are set and two.
#[tactic(auto, using(crate::proofs::ScoreLaws::two_equal, crate::proofs::ScoreLaws::two_other))]
pub fn on_two_masks(a: u8, b: u8) -> bool
    ensures { result ≡ two_masks a b }
{
    a != b && stated_mask(a).is_some() && stated_mask(b).is_some()
}

// Whether an edge counts whose ends have these masks. A conflict edge does on one mask, a stitch edge on two.
pub fn counts(edge: Edge, a: u8, b: u8) -> bool
    ensures { result ≡ edge_counts edge a b }
{
    match edge {
        Edge::Conflict => on_one_mask(a, b),
        Edge::Stitch => on_two_masks(a, b),
        Edge::Tie | Edge::None => false,
    }
}

// How many edges between j and lesser numbers count. The edge's kind is named and no closure handed on, since the contract says by it what counts.
fn count_edges(edge: Edge, words: &Matrix, masks: &[u8], j: usize) -> u32
    requires j_bound { j < 512 }
    requires j_in_bounds { j < length masks.now }
    ensures { result ≡ sum_to (λ u. edge_in edge words.now masks.now u j) j }
{
    let mut count = 0;
    for i in words.neighbours_in(j, &BitSet::below(j)).members() {
        count += u32::from(counts(edge, masks[i], masks[j]));
    }
    count
}

// What conflicts and stitches cost. There is at most one of each for each pair. The weight is a number with a bound, as masks are elsewhere: a type for either would
// be made from the settings at each call.
#[tactic(auto, using(rules::proofs::ScoreBounds::cost_small))]
pub fn cost_of(weight: u32, conflicts: u32, stitches: u32) -> u32
    requires weight_bound { weight ≤ 1000 }
    requires conflicts_bound { conflicts ≤ 130816 }
    requires stitches_bound { stitches ≤ 130816 }
    ensures { result ≡ cost_of weight conflicts stitches }
{
    weight * conflicts + stitches
}

// The score that has these counts.
pub fn score_of(weight: u32, conflicts: u32, stitches: u32) -> Score
    requires weight_bound { weight ≤ 1000 }
    requires conflicts_bound { conflicts ≤ 130816 }
    requires stitches_bound { stitches ≤ 130816 }
    ensures { result ≡ record { conflicts = conflicts; stitches = stitches; cost = cost_of weight conflicts stitches } }
{
    Score {
        conflicts,
        stitches,
        cost: cost_of(weight, conflicts, stitches),
    }
}

// The score of masks by the edges of as many numbers as there are masks.
pub fn score_edges(weight: u32, edges: &EdgeSets, masks: &[u8]) -> Score
    requires weight_bound { weight ≤ 1000 }
    requires masks_bound { length masks.now ≤ 512 }
    ensures { result ≡ score_of weight (word_graph edges.now.conflicts edges.now.stitches) masks.now (length masks.now) }
{
    let mut conflicts = 0;
    let mut stitches = 0;
    for j in 0..masks.len() {
        conflicts += count_edges(Edge::Conflict, &edges.conflicts, masks, j);
        stitches += count_edges(Edge::Stitch, &edges.stitches, masks, j);
    }
    score_of(weight, conflicts, stitches)
}

#[cfg(test)]
mod tests {
    use super::*;
    use rules::Piece;

    // RULES 3: a conflict edge counts where both masks are set and one, a stitch edge where both are set and differ. What is wrong is handed back.
    #[test]
    fn edges_that_count() -> Result<(), (Edge, u8, u8)> {
        for (edge, a, b, wanted) in [
            (Edge::Conflict, 0, 0, true),
            (Edge::Conflict, 7, 7, true),
            (Edge::Conflict, 0, 1, false),
            (Edge::Conflict, Piece::UNSET, 0, false),
            (Edge::Conflict, 0, Piece::UNSET, false),
            (Edge::Conflict, Piece::UNSET, Piece::UNSET, false),
            (Edge::Stitch, 0, 0, false),
            (Edge::Stitch, 0, 1, true),
            (Edge::Stitch, 7, 0, true),
            (Edge::Stitch, Piece::UNSET, 0, false),
            (Edge::Stitch, 0, Piece::UNSET, false),
            (Edge::Stitch, Piece::UNSET, Piece::UNSET, false),
            (Edge::Tie, 0, 0, false),
            (Edge::Tie, 0, 1, false),
            (Edge::None, 0, 0, false),
            (Edge::None, 0, 1, false),
        ] {
            if counts(edge, a, b) != wanted {
                return Err((edge, a, b));
            }
        }
        Ok(())
    }
}
