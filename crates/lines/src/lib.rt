// Lines with a key and numbers, read from a part of a text (RULES 9). The readers of layer texts and of mask files stand on this crate, and
// those of streams on its laws.
#![tactic(auto)]

mod read;
mod reader;

pub use read::{Line, read_line};
pub use reader::Reader;
