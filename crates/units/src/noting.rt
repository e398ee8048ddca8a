// The mask of each unit, where masks are given for some pieces: that of its lowest piece with one. A piece with another mask than its unit is found on the way. What is
// noted are numbers, as the masks that they are noted from, and as the rules' definitions take the fixed masks of units (RULES 18).
ghost use Rattle.std.specs.Prelude.{◌≡◌, ℕ, ◌<◌, ◌≤◌, length};
ghost use Rattle.rules.specs.Answers.{answer_of, refusal_number};
ghost use Rattle.rules.specs.Questions.{ask_each};
ghost use Rattle.rules.specs.Settings.{fixed_masks};
ghost use Rattle.adjacency.specs.UnitGraph.{unit_at};
ghost use Rattle.units.specs.Noted.{fits_noted, noted_after, NotedMasks, split_question};

use arrayvec::ArrayVec;
use rules::{Piece, Place, Refusal, Refused, stated_mask};

// The fixed masks of the pieces, in a list as masks are given in. It is an array with room for all, so it needs no heap.
pub fn fixed_masks_of(pieces: &[Piece]) -> ArrayVec<u8, 512>
    requires { length pieces.now ≤ 512 }
    ensures { result.items ≡ fixed_masks pieces.now }
{
    let mut masks = ArrayVec::new();
    for piece in pieces {
        masks.push(piece.fixed);
    }
    masks
}

// Whether a mask goes with the one that is noted of its unit. Where none is noted yet it does, and is noted.
fn fits_noted(noted: &mut [u8; 512], unit: usize, mask: u8) -> bool
    requires { unit < 512 }
    ensures value { result ≡ fits_noted noted.old unit mask }
    ensures noted_after { noted.new ≡ noted_after noted.old unit mask }
{
    match stated_mask(noted[unit]) {
        Some(known) => stated_mask(mask).is_none_or(|mask| mask == known),
        None => {
            noted[unit] = mask;
            true
        }
    }
}

// Notes the mask of each unit, whatever was noted. Answers the first piece that is set to another mask than its unit's lowest set piece.
pub fn note_masks(units: &[u16], masks: &[u8], noted: &mut [u8; 512]) -> Option<usize>
    requires masks_len_bound { length masks.now ≤ 512 }
    requires units_len { length masks.now ≤ length units.now }
    requires by_index { (i : ℕ) → i < length masks.now → unit_at units.now i < length masks.now }
    ensures { NotedMasks (unit_at units.now) masks.now noted.new result }
{
    noted.fill(Piece::UNSET);
    for (i, mask) in masks.iter().enumerate() {
        if !fits_noted(noted, usize::from(units[i]), *mask) {
            return Some(i);
        }
    }
    None
}

// Refuses that piece: question 12 of given masks, and 14 of fixed ones.
pub fn judge_masks(refusal: Refusal, units: &[u16], masks: &[u8]) -> Result<(), Refused>
    requires masks_len_bound { length masks.now ≤ 512 }
    requires units_len { length masks.now ≤ length units.now }
    requires by_index { (i : ℕ) → i < length masks.now → unit_at units.now i < length masks.now }
    ensures { answer_of result ≡ ask_each (split_question (refusal_number refusal) (unit_at units.now) (length masks.now) masks.now) (length masks.now) }
{
    let mut noted = [Piece::UNSET; 512];
    match note_masks(units, masks, &mut noted) {
        Some(first) => Err(refusal.at(Place::Piece(first as u32))),
        None => Ok(()),
    }
}
