// The whole run (RULES 8, 17 and 18): edges and units, peeling, the search of the core, putting back, the score; of a judged layer, or, with questions 4 to 7, 13
// and 14 of RULES 11, of any pieces. The public call on records hands on to `decompose_layer`.
#![tactic(auto)]

mod layer;
mod run;
mod stages;

pub use layer::decompose_layer;
pub use run::decompose;
