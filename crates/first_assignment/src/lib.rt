// The first assignment of a component (RULES 6 and 18), on its local problem, and whether one of its places is fixed. The search of the
// component starts from it and stands on this crate.
#![tactic(auto)]

mod first;

pub use first::{first_assignment, has_fixed};
