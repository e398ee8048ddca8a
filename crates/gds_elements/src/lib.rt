// The elements of a GDSII stream: rectangles with their shape numbers, read into records one after the other (RULES 16). The crate `stream`
// stands on this one.
#![tactic(auto)]

mod elements;

pub use elements::{Elements, read_elements};
