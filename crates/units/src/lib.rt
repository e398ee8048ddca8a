// Units (RULES 17): pieces that ties connect have one mask, so the decomposition's vertices are units. Here each piece gets the number of its unit, the
// edges of pieces are merged into those of units, and masks that are given for pieces are noted of their units or refused. The search, the scoring, the
// judging of fixed masks and the decomposition stand on this crate.
#![tactic(auto)]

mod merging;
mod noting;
mod numbering;

pub use merging::merge_edges;
pub use noting::{fixed_masks_of, judge_masks, note_masks};
pub use numbering::{layer_units, number_units};
