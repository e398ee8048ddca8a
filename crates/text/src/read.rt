// A layer text read: questions 2 to 6, 13 and 14.
ghost use Rattle.std.specs.Prelude.{◌≡◌};
ghost use Rattle.lines.specs.Readers.{answer_as};
ghost use Rattle.rules.specs.Answers.{HandedBack};
ghost use Rattle.rules.specs.Questions.{layer_from, read_layer};
ghost use Rattle.text.specs.Layers.{layer_of};

use crate::header::read_header;
use piece_lines::{Pieces, read_all_fixed, read_pieces};
use rules::{LayerRead, Place, Refusal, Refused, Settings};

// A layer that was read.
#[derive(Drop)]
pub struct Layer {
    pub settings: Settings,
    pub pieces: Pieces,
}

// The layer of pieces that were read, of which the first that overlaps an earlier one of its shape is refused, and then the first that has
// another fixed mask than an earlier one of its unit.
#[tactic(auto, unfolding(rules::specs::Questions::layer_from))]
pub fn judge(settings: Settings, pieces: Pieces) -> Result<Layer, Refused>
    ensures { answer_as layer_of result ≡ layer_from settings pieces }
{
    layout::judge_overlaps(pieces.as_slice())?;
    fixed_masks::judge_fixed(settings, pieces.as_slice())?;
    Ok(Layer { settings, pieces })
}

// The layer that a text states, or the first refusal.
#[tactic(auto, unfolding(rules::specs::Questions::read_layer, rules::specs::Questions::read_body))]
fn read(text: &[u8]) -> Result<Layer, Refused>
    ensures { answer_as layer_of result ≡ read_layer text.now }
{
    if 32_768 < text.len() {
        return Err(Refusal::TextSize.at(Place::Nothing));
    }
    let header = read_header(text)?;
    let mut reader = header.after;
    let pieces = read_pieces(&mut reader, header.count)?;
    let pieces = read_all_fixed(&mut reader, header.settings.masks, pieces)?;
    judge(header.settings, pieces)
}

// What was read, as the rules hand it back: after a refusal all is zero.
pub fn hand_back(read: Result<Layer, Refused>) -> LayerRead
    ensures { HandedBack (answer_as layer_of read) result }
{
    match read {
        Ok(layer) => LayerRead {
            answer: Ok(()),
            settings: layer.settings,
            count: layer.pieces.len(),
            pieces: layer.pieces.into_records(),
        },
        Err(refused) => LayerRead {
            answer: Err(refused),
            settings: Settings::default(),
            count: 0,
            pieces: Pieces::none().into_records(),
        },
    }
}

// The layer that a text states, or the first refusal and zeros. In a frame of its own, so that what reading needs of the stack is free again when a
// run begins.
#[inline(never)]
pub fn read_layer(text: &[u8]) -> LayerRead
    ensures { HandedBack (read_layer text.now) result }
{
    hand_back(read(text))
}
