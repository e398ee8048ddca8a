// The calls on lent records. Each hands its arguments on, and states again what it promises, so that a caller finds all of it here.
ghost use Rattle.std.specs.Prelude.{◌≡◌};
ghost use Rattle.rules.specs.Answers.{answer_of, decompose_answer, length_of};
ghost use Rattle.rules.specs.Calls.{score_masks, decompose_layer, masks_after, write_layer, buffer_after};
ghost use Rattle.rules.specs.Demands.{Demand3Of};

use rules::{Decomposition, Piece, Refused, Scoring, Settings};

// The score of masks on a layer, all set or half done, with the number of pairs tested, or the first of the refusals 4 to 8 and 12 to 14.
pub fn score(settings: Settings, pieces: &[Piece], masks: &[u8]) -> Result<Scoring, Refused>
    ensures { answer_of result ≡ score_masks settings pieces.now masks.now }
{
    scoring::score(settings, pieces, masks)
}

// The decomposition of a layer, with its masks in the lent list, or the first of the refusals 4 to 7, 13 and 14 and the list as it was.
pub fn decompose(
    settings: Settings,
    pieces: &[Piece],
    masks: &mut [u8],
) -> Result<Decomposition, Refused>
    ensures masks_after { decompose_answer result masks.new ≡ decompose_layer settings pieces.now masks.old }
    ensures masks_after_2 { masks.new ≡ masks_after (decompose_layer settings pieces.now masks.old) masks.old }
    ensures demand3of { Demand3Of settings pieces.now (decompose_answer result masks.new) }
{
    decomposer::decompose_layer(settings, pieces, masks)
}

// The text of a layer in the lent buffer, or the first of the refusals 1, 4 to 6, 13 and 14 and the buffer as it was.
pub fn write_layer(
    settings: Settings,
    pieces: &[Piece],
    buffer: &mut [u8],
) -> Result<usize, Refused>
    ensures result_value { answer_of result ≡ length_of (write_layer settings pieces.now buffer.old) }
    ensures buffer_after { buffer.new ≡ buffer_after (write_layer settings pieces.now buffer.old) buffer.old }
{
    writer::write_layer(settings, pieces, buffer)
}
