// What given masks score on any pieces (RULES 3), with the questions of RULES 11 before it: one pass over the pairs of pieces counts it. The public call on
// records hands on to `score`.
#![tactic(auto)]

mod scores;

pub use scores::score;
