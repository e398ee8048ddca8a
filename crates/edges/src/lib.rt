// What two pieces are to each other (RULES 2): their overlap, distance and contact, and the edge or tie between them. Judging a layer stands on the overlap;
// adjacency words, scores and the public call on two pieces stand on the edge.
#![tactic(auto)]

mod distance;
mod pair;

pub use pair::{judged_edge, pieces_overlap, tie};
