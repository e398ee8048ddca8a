// What a search is given, and what it gives.
ghost use Rattle.std.specs.Prelude.{false, ◌≡◌};
ghost use Rattle.rules.specs.Decomposition.{verdict_of};

use rules::{Settings, Verdict};

// What a run sets for the search of each of its components, in the 64 bits that the search computes in. They are made from any settings, so that they are in
// range is asked where they are used.
#[derive(Clone, Copy)]
pub struct Limits {
    pub masks: u64,
    pub weight: u64,
    pub budget: u64,
}

impl From<Settings> for Limits {
    ghost from_gives = { λ s l. l ≡ record { masks = s.masks; weight = s.weight; budget = s.budget } };

    fn from(settings: Settings) -> Limits {
        Limits {
            masks: u64::from(settings.masks),
            weight: u64::from(settings.weight),
            budget: u64::from(settings.budget),
        }
    }
}

// How far the searches of a run have come: the steps that are left of the budget, and whether a step was due when none was. They are two fields, as a
// run may use its last step and not be stopped (RULES 6).
#[derive(Clone, Copy)]
pub struct Progress {
    pub left: u64,
    pub stopped: bool,
}

impl Progress {
    // All steps of the budget are left.
    pub fn new(budget: u64) -> Progress
        ensures { result ≡ record { left = budget; stopped = false } }
    {
        Progress {
            left: budget,
            stopped: false,
        }
    }
}

// Open where a step was due beyond the budget.
impl From<Progress> for Verdict {
    ghost from_gives = { λ p v. v ≡ verdict_of p.stopped };

    fn from(progress: Progress) -> Verdict {
        if progress.stopped {
            Verdict::Open
        } else {
            Verdict::Best
        }
    }
}

// The best masks of the places that a search found, and what they cost. As no heap is used, the array has room for the most places: what stands past
// the last place says nothing.
#[derive(Clone, Copy)]
pub struct Best {
    pub masks: [u8; 512],
    pub cost: u64,
}
