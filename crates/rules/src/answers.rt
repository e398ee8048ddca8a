// What the public calls answer (RULES 12), beside the refusal that each of them may give.
ghost use Rattle.std.specs.Prelude.{◌≡◌, ◌≤◌, take};

use crate::layer::{Piece, Settings};
use crate::refusal::Refused;
use std::fmt;
use std::fmt::Display;

// What masks cost (RULES 3).
#[derive(Clone, Copy, Debug, PartialEq, Eq)]
pub struct Score {
    pub conflicts: u32,
    pub stitches: u32,
    pub cost: u32,
}

// What scoring answers: the score, and beside it how many unordered pairs of pieces were tested for an edge.
#[derive(Clone, Copy, Debug, PartialEq, Eq)]
pub struct Scoring {
    pub score: Score,
    pub tested: u32,
}

// Best: the search ended within the budget. Open: it did not.
#[derive(Clone, Copy, Debug, PartialEq, Eq)]
pub enum Verdict {
    Best,
    Open,
}

impl Display for Verdict {
    fn fmt<W: fmt::Write>(&self, f: &mut fmt::Formatter<W>) -> fmt::Result {
        match self {
            Verdict::Best => f.write_str("best"),
            Verdict::Open => f.write_str("open"),
        }
    }
}

// What a run answers beside its masks, which lie in the list that the caller lent: their score, the steps taken, and the verdict.
#[derive(Clone, Copy, Debug, PartialEq, Eq)]
pub struct Decomposition {
    pub score: Score,
    pub steps: u32,
    pub verdict: Verdict,
}

// A layer that was read. The records after `count` are zero. The rules hand back settings and records after a refusal too, all zero, so
// the answer stands beside them and not around them. That they are a valid layer where the answer is `Ok` is promised by what reads them (`HandedBack`), and no ghost
// field: what hands back zeros, and knows no rule, would have to prove it.
#[derive(Clone, Copy)]
pub struct LayerRead {
    pub answer: Result<(), Refused>,
    pub settings: Settings,
    pub count: usize,
    pub pieces: [Piece; 512],
}

impl LayerRead {
    // The pieces that were read, to be lent on.
    pub fn lent(&self) -> &[Piece]
        requires { self.now.count ≤ 512 }
        ensures { result.now ≡ take self.now.count self.now.pieces }
    {
        &self.pieces[..self.count]
    }
}
