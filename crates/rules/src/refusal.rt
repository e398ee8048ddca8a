// Refusals (RULES 11): the question that was answered with no, and the place.
ghost use Rattle.std.specs.Prelude.{◌≡◌};
ghost use Rattle.rules.specs.Answers.{refusal_number};
ghost use Rattle.rules.specs.Loader.{place_number};

use std::error::Error;
use std::fmt;
use std::fmt::Display;

// One case for each question, with its number.
#[derive(Clone, Copy, Debug, PartialEq, Eq)]
pub enum Refusal {
    Buffer = 1,
    TextSize = 2,
    Form = 3,
    Range = 4,
    Area = 5,
    Overlap = 6,
    MaskCount = 7,
    MaskRange = 8,
    Record = 9,
    Rectangle = 10,
    Unit = 11,
    Split = 12,
    FixedRange = 13,
    FixedSplit = 14,
}

impl Refusal {
    // The number of the question.
    pub fn number(self) -> u32
        ensures { result ≡ refusal_number self }
    {
        self as u32
    }

    // The refusal of what stands at this place.
    pub fn at(self, place: Place) -> Refused
        ensures { result ≡ record { refusal = self; place = place } }
    {
        Refused {
            refusal: self,
            place,
        }
    }
}

// Where the refused input stands: a line from 1, a piece from 0, a record of a stream from 1, or nothing. `Nothing` is a case here and not an `Option` around the
// others, since the rules give it a number as they give the others (RULES 11).
#[derive(Clone, Copy, Debug, PartialEq, Eq)]
pub enum Place {
    Line(u32),
    Piece(u32),
    Record(u32),
    Nothing,
}

impl Place {
    // The place as a number, where nothing is 0.
    pub fn number(self) -> u32
        ensures { result ≡ place_number self }
    {
        match self {
            Place::Line(number) | Place::Piece(number) | Place::Record(number) => number,
            Place::Nothing => 0,
        }
    }
}

// What a call answers that refuses its input.
#[derive(Clone, Copy, Debug, PartialEq, Eq)]
pub struct Refused {
    pub refusal: Refusal,
    pub place: Place,
}

// The number of the question, a comma and the place as a number, as a refusal is printed (RULES 12).
impl Display for Refused {
    fn fmt<W: fmt::Write>(&self, f: &mut fmt::Formatter<W>) -> fmt::Result {
        write!(f, "{},{}", self.refusal.number(), self.place.number())
    }
}

impl Error for Refused {}
