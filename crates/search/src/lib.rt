// The branch-and-bound search of one component (RULES 6; document 01: the walk), on its local problem: places are numbered from 0, and
// each has the list of its earlier neighbours. The search of all components stands on this crate.
#![tactic(auto)]

mod branch;
mod component;
mod incumbent;
mod limits;

pub use component::search_component;
pub use limits::{Best, Limits, Progress};
