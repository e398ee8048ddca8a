// Where the five-piece library (RULES 19) ends the search of a component, from its local problem. The search of the core stands on this crate.
#![tactic(auto)]

mod ends;
mod listed_edges;

pub use ends::library_end;
