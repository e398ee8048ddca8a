// Peeling and putting back (RULES 4 and 7) on adjacency words. The vertices that are there are a bit set. What is removed is listed, a vertex and its stitch
// neighbour, so that it can return in reverse order. The list is an array with room for every vertex, so it needs no heap.
#![tactic(auto)]

mod peeling;
mod putting_back;

pub use peeling::{Removal, peel};
pub use putting_back::put_back;
