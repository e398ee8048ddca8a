// Calls for whoever lends the pieces as records (RULES 12): the score of masks, the decomposition, the text of a layer. With the edge
// between two pieces, which takes them by value, they are all that a caller of the library needs beside the types of `rules`.
#![tactic(auto)]

mod calls;

pub use calls::{decompose, score, write_layer};
pub use edge_call::edge;
