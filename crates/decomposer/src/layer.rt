// The run on any pieces, with the questions before it.
ghost use Rattle.std.specs.Prelude.{◌≡◌};
ghost use Rattle.rules.specs.Answers.{decompose_answer};
ghost use Rattle.rules.specs.Calls.{decompose_layer, masks_after};
ghost use Rattle.rules.specs.Demands.{Demand3Of};

use crate::run::decompose;
use rules::{Decomposition, Piece, Place, Refusal, Refused, Settings};

// The run on any pieces, with its masks in the lent list, or the first of the refusals 4 to 6, 13, 14 and 7, and the list as it was.
pub fn decompose_layer(
    settings: Settings,
    pieces: &[Piece],
    masks: &mut [u8],
) -> Result<Decomposition, Refused>
    ensures masks_after { decompose_answer result masks.new ≡ decompose_layer settings pieces.now masks.old }
    ensures masks_after_2 { masks.new ≡ masks_after (decompose_layer settings pieces.now masks.old) masks.old }
    ensures demand3of { Demand3Of settings pieces.now (decompose_answer result masks.new) }
{
    let layer = fixed_masks::judge(settings, pieces)?;
    if masks.len() != pieces.len() {
        return Err(Refusal::MaskCount.at(Place::Nothing));
    }
    Ok(decompose(&layer, masks))
}
