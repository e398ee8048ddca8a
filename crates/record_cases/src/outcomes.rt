// What a call comes to, with whether lent memory is then as it must be.
ghost use Rattle.std.specs.Prelude.{◌≡◌, Err, Ok};
ghost use Rattle.record_cases.specs.Outcomes.{numbers_of};

use rules::{Decomposition, Place, Refusal, Refused, Score, Scoring, Verdict};
use std::fmt;
use std::fmt::Display;

// What a call answers that refuses nothing.
#[derive(Clone, Copy, Debug, PartialEq, Eq)]
pub enum Done {
    Scored(Scoring),
    Decomposed(Decomposition),
    Written(usize),
}

// The answer with this score and so many tested pairs.
pub fn scored(conflicts: u32, stitches: u32, cost: u32, tested: u32) -> Result<Done, Refused>
    ensures { result ≡ Ok (Done.Scored (record { score = record { conflicts = conflicts; stitches = stitches; cost = cost }; tested = tested })) }
{
    let score = Score {
        conflicts,
        stitches,
        cost,
    };
    Ok(Done::Scored(Scoring { score, tested }))
}

// The answer of a run that ended within its budget.
pub fn best(conflicts: u32, stitches: u32, cost: u32, steps: u32) -> Result<Done, Refused>
    ensures { result ≡ Ok (Done.Decomposed (record { score = record { conflicts = conflicts; stitches = stitches; cost = cost }; steps = steps; verdict = Verdict.Best })) }
{
    let score = Score {
        conflicts,
        stitches,
        cost,
    };
    Ok(Done::Decomposed(Decomposition {
        score,
        steps,
        verdict: Verdict::Best,
    }))
}

// The answer that refuses what stands at this place.
pub fn refused(refusal: Refusal, place: Place) -> Result<Done, Refused>
    ensures { result ≡ Err (record { refusal = refusal; place = place }) }
{
    Err(refusal.at(place))
}

// An answer, and whether lent memory is as it must be. It is printed as one row of eight numbers, whatever was called.
#[derive(Clone, Copy, Debug, PartialEq, Eq)]
pub struct Outcome {
    pub answer: Result<Done, Refused>,
    pub kept: bool,
}

impl Outcome {
    // As eight numbers: the refusal's number and place; conflicts, stitches and cost; steps, pairs tested, or the length of a text; 1 where
    // the run is best; and 1 where lent memory is not as it must be. What a call does not give is 0.
    fn numbers(self) -> [u64; 8]
        ensures { result ≡ numbers_of self }
    {
        let changed = u64::from(!self.kept);
        match self.answer {
            Ok(Done::Scored(Scoring { score, tested })) => [
                0,
                0,
                u64::from(score.conflicts),
                u64::from(score.stitches),
                u64::from(score.cost),
                u64::from(tested),
                0,
                changed,
            ],
            Ok(Done::Decomposed(run)) => [
                0,
                0,
                u64::from(run.score.conflicts),
                u64::from(run.score.stitches),
                u64::from(run.score.cost),
                u64::from(run.steps),
                u64::from(run.verdict == Verdict::Best),
                changed,
            ],
            Ok(Done::Written(size)) => [0, 0, 0, 0, 0, size as u64, 0, changed],
            Err(Refused { refusal, place }) => [
                u64::from(refusal.number()),
                u64::from(place.number()),
                0,
                0,
                0,
                0,
                0,
                changed,
            ],
        }
    }
}

impl Display for Outcome {
    fn fmt<W: fmt::Write>(&self, f: &mut fmt::Formatter<W>) -> fmt::Result {
        let [
            number,
            place,
            conflicts,
            stitches,
            cost,
            work,
            best,
            changed,
        ] = self.numbers();
        write!(
            f,
            "{number} {place} {conflicts} {stitches} {cost} {work} {best} {changed}"
        )
    }
}
