// The records of a stream in the order in which they are due, and what each of them must be.
ghost use Rattle.std.specs.Prelude.{◌≡◌};
ghost use Rattle.rules.specs.Answers.{refusal_number};
ghost use Rattle.gds_records.specs.Kinds.{due_of, form_of};

use rules::Refusal;

// Each with the type that GDSII gives it.
#[derive(Clone, Copy, PartialEq, Eq, Debug)]
pub enum Kind {
    Header = 0,
    Bgnlib = 1,
    Libname = 2,
    Units = 3,
    Bgnstr = 5,
    Strname = 6,
    Boundary = 8,
    Layer = 13,
    Datatype = 14,
    Xy = 16,
    Propattr = 43,
    Propvalue = 44,
    Endel = 17,
    Endstr = 7,
    Endlib = 4,
}

// The type and the data type of a record, and the least and the greatest length of its data.
#[derive(Clone, Copy, PartialEq, Eq, Debug)]
pub struct Form {
    pub record_type: u8,
    pub data_type: u8,
    pub least: u16,
    pub greatest: u16,
}

impl Kind {
    pub fn form(self) -> Form
        ensures { result ≡ form_of (due_of self) }
    {
        let (data_type, least, greatest) = match self {
            Kind::Header | Kind::Layer | Kind::Datatype | Kind::Propattr => (2, 2, 2),
            Kind::Bgnlib | Kind::Bgnstr => (2, 24, 24),
            Kind::Libname | Kind::Strname | Kind::Propvalue => (6, 0, 65_535),
            Kind::Units => (5, 16, 16),
            Kind::Xy => (3, 40, 40),
            Kind::Boundary | Kind::Endel | Kind::Endstr | Kind::Endlib => (0, 0, 0),
        };
        Form {
            record_type: self as u8,
            data_type,
            least,
            greatest,
        }
    }

    // The refusal of data that are not right.
    pub fn refusal(self) -> Refusal
        ensures { refusal_number result ≡ (due_of self).number }
    {
        match self {
            Kind::Units => Refusal::Unit,
            Kind::Xy => Refusal::Rectangle,
            _ => Refusal::Record,
        }
    }
}
