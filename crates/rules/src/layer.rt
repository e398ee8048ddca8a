// Settings, pieces and edges (RULES 1 and 2). Fields are wider than their ranges, so that a call can be
// given any value and refuses what is out of range.
ghost use Rattle.std.specs.Prelude.{◌≡◌};
ghost use Rattle.rules.specs.Answers.{answer_of};
ghost use Rattle.rules.specs.Calls.{new_settings};
ghost use Rattle.rules.specs.Questions.{piece_from};
ghost use Rattle.rules.specs.Settings.{settings_in_range, stated_mask, fixed_in_range};

use crate::refusal::{Place, Refusal, Refused};
use std::fmt;
use std::fmt::Display;
use std::ops::RangeBounds;

#[derive(Clone, Copy, Debug, Default, PartialEq, Eq)]
pub struct Settings {
    pub masks: u32,
    pub spacing: u32,
    pub margin: u32,
    pub weight: u32,
    pub budget: u32,
}

// The ends of the ranges, two numbers each: a range is made by a call, and a constant's value may not have one.
impl Settings {
    pub const MASKS_LEAST: u32 = 2;

    pub const MASKS_GREATEST: u32 = 8;

    pub const SPACING_LEAST: u32 = 1;

    pub const SPACING_GREATEST: u32 = 100_000;

    pub const MARGIN_LEAST: u32 = 1;

    pub const MARGIN_GREATEST: u32 = 100_000;

    pub const WEIGHT_LEAST: u32 = 1;

    pub const WEIGHT_GREATEST: u32 = 1_000;

    pub const BUDGET_LEAST: u32 = 0;

    pub const BUDGET_GREATEST: u32 = 1_000_000_000;

    #[tactic(auto, unfolding(crate::specs::Calls::new_settings))]
    // The settings with these values, or refusal 4 where one is out of its range.
    pub fn new(
        masks: u32,
        spacing: u32,
        margin: u32,
        weight: u32,
        budget: u32,
    ) -> Result<Settings, Refused>
        ensures { answer_of result ≡ new_settings masks spacing margin weight budget }
    {
        let settings = Settings {
            masks,
            spacing,
            margin,
            weight,
            budget,
        };
        if settings.in_range() {
            Ok(settings)
        } else {
            Err(Refusal::Range.at(Place::Nothing))
        }
    }

    // Whether each setting is in its range.
    #[tactic(auto, unfolding(crate::specs::Settings::settings_in_range))]
    pub fn in_range(self) -> bool
        ensures { result ≡ settings_in_range self }
    {
        (Settings::MASKS_LEAST..=Settings::MASKS_GREATEST).contains(&self.masks)
            && (Settings::SPACING_LEAST..=Settings::SPACING_GREATEST).contains(&self.spacing)
            && (Settings::MARGIN_LEAST..=Settings::MARGIN_GREATEST).contains(&self.margin)
            && (Settings::WEIGHT_LEAST..=Settings::WEIGHT_GREATEST).contains(&self.weight)
            && (Settings::BUDGET_LEAST..=Settings::BUDGET_GREATEST).contains(&self.budget)
    }
}

// A rectangle, which shape it belongs to, and the mask that the designer has fixed for it, `UNSET` where none is.
#[derive(Clone, Copy, Debug, Default, PartialEq, Eq)]
pub struct Piece {
    pub shape: u32,
    pub x1: u32,
    pub y1: u32,
    pub x2: u32,
    pub y2: u32,
    pub fixed: u8,
}

impl Piece {
    pub const SHAPE_GREATEST: u32 = 511;

    pub const COORDINATE_GREATEST: u32 = 1_000_000;

    pub const COUNT_GREATEST: usize = 512;

    // What stands in the place of a mask where there is none: as the fixed mask of a piece that may have any (RULES 18), and, where masks
    // are scored, of a piece that is not set yet (RULES 3).
    pub const UNSET: u8 = 255;
}

// The piece that five numbers state, its shape and its corners, as a line of a layer text has them. It has no fixed mask.
impl From<[u32; 5]> for Piece {
    ghost from_gives = { λ ns p. p ≡ piece_from ns };

    fn from(numbers: [u32; 5]) -> Piece {
        let [shape, x1, y1, x2, y2] = numbers;
        Piece {
            shape,
            x1,
            y1,
            x2,
            y2,
            fixed: Piece::UNSET,
        }
    }
}

// The mask that a number of a record or of a lent list states, where it states one. Records and lists hold numbers, since their callers write them (RULES 3 and 18),
// and an `Option` in their place would have a case more, a mask of 255.
#[inline]
pub fn stated_mask(number: u8) -> Option<u8>
    ensures { result ≡ stated_mask number }
{
    (number != Piece::UNSET).then_some(number)
}

// Whether a number states one of so many masks, or none.
pub fn mask_in_range(masks: u32, number: u8) -> bool
    ensures { result ≡ fixed_in_range masks number }
{
    stated_mask(number).is_none_or(|mask| u32::from(mask) < masks)
}

// How two pieces are joined: by an edge of the one or the other kind, or by a tie, which puts both on one mask. `None` is a case here and not an `Option` around
// the others, since the call on two pieces answers it as one of four (RULES 12).
#[derive(Clone, Copy, Debug, PartialEq, Eq)]
pub enum Edge {
    Conflict,
    Stitch,
    Tie,
    None,
}

impl Display for Edge {
    fn fmt<W: fmt::Write>(&self, f: &mut fmt::Formatter<W>) -> fmt::Result {
        match self {
            Edge::Conflict => f.write_str("conflict"),
            Edge::Stitch => f.write_str("stitch"),
            Edge::Tie => f.write_str("tie"),
            Edge::None => f.write_str("none"),
        }
    }
}
