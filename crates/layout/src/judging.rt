// Questions 4 to 6 and 13 of lent records (RULES 11).
ghost use Rattle.std.specs.Prelude.{◌≡◌, ◌≤◌, ◌<◌, length};
ghost use Rattle.rules.specs.declared.refusal.Place.{Place};
ghost use Rattle.rules.specs.Answers.{answer_of};
ghost use Rattle.rules.specs.Basics.{any_of, up_to};
ghost use Rattle.rules.specs.Settings.{piece_in_range, has_area, piece_at};
ghost use Rattle.rules.specs.Edges.{overlapping};
ghost use Rattle.rules.specs.Questions.{ask_each, judge_piece, judge_record, judge_records, judge_overlaps};

use edges::pieces_overlap;
use rules::{Piece, Place, Refusal, Refused, Settings, mask_in_range};

// Whether each number of a piece is in its range, which begins at 0.
#[tactic(auto, unfolding(rules::specs::Settings::piece_in_range))]
pub fn piece_in_range(p: Piece) -> bool
    ensures { result ≡ piece_in_range p }
{
    p.shape <= Piece::SHAPE_GREATEST
        && p.x1 <= Piece::COORDINATE_GREATEST
        && p.y1 <= Piece::COORDINATE_GREATEST
        && p.x2 <= Piece::COORDINATE_GREATEST
        && p.y2 <= Piece::COORDINATE_GREATEST
}

// Whether a piece has width and height.
#[tactic(auto, unfolding(rules::specs::Settings::has_area))]
pub fn has_area(p: Piece) -> bool
    ensures { result ≡ has_area p }
{
    p.x1 < p.x2 && p.y1 < p.y2
}

// Questions 4 and 5 of one piece.
#[tactic(auto, unfolding(rules::specs::Questions::judge_piece))]
pub fn judge_piece(place: Place, p: Piece) -> Result<(), Refused>
    ensures { answer_of result ≡ judge_piece place p }
{
    if !piece_in_range(p) {
        return Err(Refusal::Range.at(place));
    }
    if !has_area(p) {
        return Err(Refusal::Area.at(place));
    }
    Ok(())
}

// Questions 4, 13 and 5 of one record. Not by `judge_piece`: the rules ask 13 of a record between 4 and 5, and of a piece line not at all.
#[tactic(auto, unfolding(rules::specs::Questions::judge_record))]
pub fn judge_record(masks: u32, place: Place, p: Piece) -> Result<(), Refused>
    ensures { answer_of result ≡ judge_record masks place p }
{
    if !piece_in_range(p) {
        return Err(Refusal::Range.at(place));
    }
    if !mask_in_range(masks, p.fixed) {
        return Err(Refusal::FixedRange.at(place));
    }
    if !has_area(p) {
        return Err(Refusal::Area.at(place));
    }
    Ok(())
}

// Questions 4, 13 and 5 of each piece.
#[tactic(auto, using(rules::proofs::Outcomes::each_next), unfolding(rules::specs::Questions::ask_each))]
pub fn judge_each(masks: u32, pieces: &[Piece]) -> Result<(), Refused>
    requires { length pieces.now ≤ 512 }
    ensures { answer_of result ≡ ask_each (λ i. judge_record masks (Place.Piece i) (piece_at pieces.now i)) (length pieces.now) }
{
    for (i, piece) in pieces.iter().enumerate() {
        judge_record(masks, Place::Piece(i as u32), *piece)?;
    }
    Ok(())
}

// Whether piece j overlaps an earlier one of its shape.
fn overlaps_earlier(pieces: &[Piece], j: usize) -> bool
    requires { j < length pieces.now }
    ensures { result ≡ any_of (λ i. overlapping (piece_at pieces.now i) (piece_at pieces.now j)) (up_to j) }
{
    let piece = pieces[j];
    pieces[..j]
        .iter()
        .any(|earlier| pieces_overlap(*earlier, piece))
}

// Question 6 of the pieces. In a frame of its own: inlined into a reader, its loop over pairs has no registers of its own, and a reading takes a third longer.
#[inline(never)]
#[tactic(auto, using(rules::proofs::Outcomes::each_next, rules::proofs::Outcomes::each_refused), unfolding(rules::specs::Questions::ask_each, rules::specs::Questions::judge_overlaps))]
pub fn judge_overlaps(pieces: &[Piece]) -> Result<(), Refused>
    requires { length pieces.now ≤ 512 }
    ensures { answer_of result ≡ judge_overlaps pieces.now }
{
    for j in 0..pieces.len() {
        if overlaps_earlier(pieces, j) {
            return Err(Refusal::Overlap.at(Place::Piece(j as u32)));
        }
    }
    Ok(())
}

// Questions 4 to 6 and 13 of the layer of these pieces.
#[tactic(auto, unfolding(rules::specs::Questions::judge_records))]
pub fn judge(settings: Settings, pieces: &[Piece]) -> Result<(), Refused>
    ensures { answer_of result ≡ judge_records settings pieces.now }
{
    if !settings.in_range() {
        return Err(Refusal::Range.at(Place::Nothing));
    }
    if Piece::COUNT_GREATEST < pieces.len() {
        return Err(Refusal::Range.at(Place::Nothing));
    }
    judge_each(settings.masks, pieces)?;
    judge_overlaps(pieces)
}
