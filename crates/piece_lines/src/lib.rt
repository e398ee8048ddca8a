// The lines of pieces, and the lines after them that fix masks, read into records. The reader of a layer text stands on this crate, and so
// does the reader of a stream's elements, for its records.
#![tactic(auto)]

mod fixed;
mod pieces;
mod records;

pub use fixed::read_all_fixed;
pub use pieces::read_pieces;
pub use records::Pieces;
