// One pass over the unordered pairs of pieces. Each pair is tested for an edge once, from its greater number, and the same test says whether it is a conflict, a
// stitch or a tie. Tests are counted where they are made, whether the ends of the pair are set or not. Scoring stands on this crate.
#![tactic(auto)]

ghost use Rattle.std.specs.Prelude.{◌≡◌, ◌<◌, length};
ghost use Rattle.rules.specs.Basics.{sum_to};
ghost use Rattle.rules.specs.Edges.{graph_of};
ghost use Rattle.rules.specs.Score.{conflicts_of, stitches_of, pairs_of};
ghost use Rattle.adjacency.specs.Adjacency.{tie_of, RowTo, Ties};
ghost use Rattle.pair_tests.specs.PairTests.{conflict_at, stitch_at};

mod tally;

use adjacency::{DrawnLayer, Reach};
use bitset::Matrix;
use rules::Edge;
pub use tally::Tally;

// Tests piece j with each piece before it. Those that are tied are joined.
#[tactic(auto, using(rules::proofs::Ranges::settings_facts))]
fn test_row(layer: &DrawnLayer, masks: &[u8], j: usize, ties: &mut Matrix) -> Tally
    requires j_bound { j < length layer.now.pieces.now }
    requires masks_len { length masks.now ≡ length layer.now.pieces.now }
    ensures tested_value { result.tested ≡ sum_to (λ u. 1) j }
    ensures conflicts_value { result.conflicts ≡ sum_to (λ u. conflict_at layer.now.settings layer.now.pieces.now masks.now u j) j }
    ensures stitches_value { result.stitches ≡ sum_to (λ u. stitch_at layer.now.settings layer.now.pieces.now masks.now u j) j }
    ensures row_to { RowTo (tie_of layer.now.settings layer.now.pieces.now) j j ties.old ties.new }
{
    let reach = Reach::of(layer.settings, layer.pieces[j]);
    let mut tally = Tally::default();
    for (i, earlier) in layer.pieces[..j].iter().enumerate() {
        let edge = reach.edge_from(*earlier);
        tally.add(edge, masks[i], masks[j]);
        if edge == Edge::Tie {
            ties.join(i, j);
        }
    }
    tally
}

// Tests every pair of the pieces of a layer. That there are as many masks as pieces stands in contracts, here and where a run fills its masks: one list is read and the
// other written, so no one struct has both. Fills the words of ties, whatever was in them.
pub fn test_pairs(layer: &DrawnLayer, masks: &[u8], ties: &mut Matrix) -> Tally
    requires { length masks.now ≡ length layer.now.pieces.now }
    ensures tested_value { result.tested ≡ pairs_of (length layer.now.pieces.now) }
    ensures conflicts_value { result.conflicts ≡ conflicts_of (graph_of layer.now.settings layer.now.pieces.now) masks.now (length layer.now.pieces.now) }
    ensures stitches_value { result.stitches ≡ stitches_of (graph_of layer.now.settings layer.now.pieces.now) masks.now (length layer.now.pieces.now) }
    ensures ties { Ties layer.now.settings layer.now.pieces.now (length layer.now.pieces.now) ties.new }
{
    ties.clear();
    let mut tally = Tally::default();
    for j in 0..layer.pieces.len() {
        tally += test_row(layer, masks, j, ties);
    }
    tally
}
