// Question 14 (RULES 18): no piece has another fixed mask than an earlier one of its unit. With the questions of layout it is the whole judgement of a layer.
// Reading, writing, scoring and the decomposition stand on this crate.
#![tactic(auto)]

ghost use Rattle.std.specs.Prelude.{◌≡◌, ◌≤◌, length, IfOk};
ghost use Rattle.rules.specs.Answers.{answer_of, judged};
ghost use Rattle.rules.specs.Questions.{judge_fixed, judge_layer};

use bitset::Matrix;
use rules::{Piece, Refusal, Refused, Settings, ValidLayer, stated_mask};

// Question 14 by the units of the pieces: the first piece that differs from an earlier one is the first that differs from the lowest one with a fixed mask.
fn judge_units(settings: Settings, pieces: &[Piece]) -> Result<(), Refused>
    requires { length pieces.now ≤ 512 }
    ensures { answer_of result ≡ judge_fixed settings pieces.now }
{
    let mut ties = Matrix::empty();
    let mut units = [0u16; 512];
    let units = &mut units[..pieces.len()];
    adjacency::tie_words(settings, pieces, &mut ties);
    units::number_units(&ties, units);
    let masks = units::fixed_masks_of(pieces);
    units::judge_masks(Refusal::FixedSplit, units, masks.as_slice())
}

// Question 14 of the pieces. Units are looked for only where a mask is fixed.
pub fn judge_fixed(settings: Settings, pieces: &[Piece]) -> Result<(), Refused>
    requires { length pieces.now ≤ 512 }
    ensures { answer_of result ≡ judge_fixed settings pieces.now }
{
    if pieces
        .iter()
        .all(|piece| stated_mask(piece.fixed).is_none())
    {
        return Ok(());
    }
    judge_units(settings, pieces)
}

// The whole judgement of the layer of these pieces: questions 4 to 6 and 13, then 14. A layer that passes is handed on as a judged one.
#[tactic(auto, using(crate::proofs::FixedLaws::records_few), unfolding(rules::specs::Questions::judge_layer))]
pub fn judge<'a>(settings: Settings, pieces: &'a [Piece]) -> Result<ValidLayer<'a>, Refused>
    ensures answer { judged result ≡ judge_layer settings pieces.now }
    ensures layer { IfOk result (λ l. (l.settings ≡ settings) × (l.pieces.now ≡ pieces.now)) }
{
    layout::judge(settings, pieces)?;
    judge_fixed(settings, pieces)?;
    Ok(ValidLayer { settings, pieces })
}
