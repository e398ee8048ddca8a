// The adjacency words of a layer: a bit for each pair of pieces, in words for each kind of edge and for ties. Each unordered pair
// is met once, from its greater number, and both of its bits are set.
ghost use Rattle.std.specs.Prelude.{◌&&◌, ◌||◌, ◌≡◌, ℕ, ◌<◌, length};
ghost use Rattle.bitset.specs.Edges.{has_edge, NoEdge};
ghost use Rattle.adjacency.specs.Adjacency.{conflict_of, stitch_of, tie_of, is_pair, RowTo, Adjacency, Ties};
ghost use Rattle.adjacency.specs.Kinds.{is_conflict, is_stitch, is_tie};

use crate::layer::DrawnLayer;
use crate::reach::Reach;
use bitset::Matrix;
use rules::Edge;

// The edges of both kinds. They take 64 KB of stack, so what fills them is lent them, and none is copied.
#[derive(Drop)]
pub struct EdgeSets {
    pub conflicts: Matrix,
    pub stitches: Matrix,
}

impl EdgeSets {
    // No edge of either kind.
    pub fn empty() -> EdgeSets
        ensures conflicts { NoEdge result.conflicts }
        ensures stitches { NoEdge result.stitches }
    {
        EdgeSets {
            conflicts: Matrix::empty(),
            stitches: Matrix::empty(),
        }
    }
}

// Joins i and j in the words of what was found between them. Ties are no part of `EdgeSets`, whose fixed memory is kept through the search, and a struct of what
// is lent of both would be made for this crate alone.
fn join_by(edge: Edge, i: usize, j: usize, edges: &mut EdgeSets, ties: &mut Matrix)
    requires i_bound { i < 512 }
    requires j_bound { j < 512 }
    ensures conflicts { (a b : ℕ) → has_edge edges.new.conflicts a b ≡ (has_edge edges.old.conflicts a b || (is_conflict edge && is_pair i j a b)) }
    ensures stitches { (a b : ℕ) → has_edge edges.new.stitches a b ≡ (has_edge edges.old.stitches a b || (is_stitch edge && is_pair i j a b)) }
    ensures ties { (a b : ℕ) → has_edge ties.new a b ≡ (has_edge ties.old a b || (is_tie edge && is_pair i j a b)) }
{
    match edge {
        Edge::Conflict => edges.conflicts.join(i, j),
        Edge::Stitch => edges.stitches.join(i, j),
        Edge::Tie => ties.join(i, j),
        Edge::None => {}
    }
}

// Adds the edges and ties between piece j and the pieces before it.
#[tactic(auto, using(rules::proofs::Ranges::settings_facts))]
fn adjacency_row(layer: &DrawnLayer, j: usize, edges: &mut EdgeSets, ties: &mut Matrix)
    requires { j < length layer.now.pieces.now }
    ensures conflicts { RowTo (conflict_of layer.now.settings layer.now.pieces.now) j j edges.old.conflicts edges.new.conflicts }
    ensures stitches { RowTo (stitch_of layer.now.settings layer.now.pieces.now) j j edges.old.stitches edges.new.stitches }
    ensures ties { RowTo (tie_of layer.now.settings layer.now.pieces.now) j j ties.old ties.new }
{
    let reach = Reach::of(layer.settings, layer.pieces[j]);
    for (i, earlier) in layer.pieces[..j].iter().enumerate() {
        join_by(reach.edge_from(*earlier), i, j, edges, ties);
    }
}

// Fills the words of edges and ties, whatever was in them.
pub fn adjacency_words(layer: &DrawnLayer, edges: &mut EdgeSets, ties: &mut Matrix)
    ensures adjacency { Adjacency layer.now.settings layer.now.pieces.now (length layer.now.pieces.now) edges.new.conflicts edges.new.stitches }
    ensures ties { Ties layer.now.settings layer.now.pieces.now (length layer.now.pieces.now) ties.new }
{
    edges.conflicts.clear();
    edges.stitches.clear();
    ties.clear();
    for j in 0..layer.pieces.len() {
        adjacency_row(layer, j, edges, ties);
    }
}
