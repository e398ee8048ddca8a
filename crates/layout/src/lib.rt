// Judging lent records: questions 4 to 6 and 13 of RULES 11. The readers of layer texts and of streams stand on this crate, and so does `fixed_masks`, which asks the
// question after these; by that crate alone the calls on lists of records do. The call on two pieces asks that question of the two itself.
#![tactic(auto)]

mod judging;

pub use judging::{judge, judge_each, judge_overlaps, judge_piece, judge_record};
