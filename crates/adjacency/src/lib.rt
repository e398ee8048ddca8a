// Edges among many pieces of a layer (RULES 2): the test of one piece against many, and adjacency words, a bit for each pair
// of pieces; and the words of ties alone, of any pieces. Units, scoring, peeling and the search stand on these.
#![tactic(auto)]

mod edge_sets;
mod layer;
mod reach;
mod ties;

pub use edge_sets::{EdgeSets, adjacency_words};
pub use layer::DrawnLayer;
pub use reach::Reach;
pub use ties::tie_words;
