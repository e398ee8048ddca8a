// GDSII records, one after the other: the one that is due, with its data judged (RULES 16). The crates `gds_elements` and `stream` stand
// on this one.
#![tactic(auto)]

mod kinds;
mod reader;
mod records;

pub use kinds::Kind;
pub use reader::Records;
pub use records::{Record, is_due, read_record};
