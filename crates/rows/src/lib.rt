// What each mask adds at a place of a component's local problem (RULES 6): one pass over the place's earlier neighbours fills a row of eight costs,
// by a table of the weight. The first assignment and the search stand on this crate.
#![tactic(auto)]

mod row;
mod table;

pub use row::added_row;
pub use table::Table;
