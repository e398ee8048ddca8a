// The layer text read into records. The loader's call and the programs that take a layer text stand on this crate; the laws of the
// layer text, that reading and writing are inverse, stand in `text_theory`.
#![tactic(auto)]

mod header;
mod read;

pub use header::{Header, read_header};
pub use read::{Layer, hand_back, judge, read_layer};
