// A stream read into a layer: the settings, the elements, then their pieces judged as lent ones.
ghost use Rattle.std.specs.Prelude.{◌≡◌};
ghost use Rattle.lines.specs.Readers.{answer_as};
ghost use Rattle.rules.specs.Answers.{HandedBack};
ghost use Rattle.rules.specs.Stream.{read_stream};
ghost use Rattle.text.specs.Layers.{layer_of};
ghost use Rattle.stream.specs.Reading.{judged_records};

use crate::elements::read_stream_elements;
use crate::settings::read_settings;
use piece_lines::Pieces;
use rules::{LayerRead, Piece, Place, Refusal, Refused, Settings};
use text::{Layer, hand_back};

// The layer of pieces judged as lent ones.
fn judge(settings: Settings, pieces: Pieces) -> Result<Layer, Refused>
    ensures { answer_as layer_of result ≡ judged_records settings pieces }
{
    layout::judge_each(settings.masks, pieces.as_slice())?;
    text::judge(settings, pieces)
}

// The layer that a settings text and a stream state.
#[tactic(auto, unfolding(rules::specs::Stream::read_stream))]
fn read(settings: &[u8], stream: &[u8]) -> Result<Layer, Refused>
    ensures { answer_as layer_of result ≡ read_stream settings.now stream.now }
{
    if 32_768 < settings.len() || 65_536 < stream.len() {
        return Err(Refusal::TextSize.at(Place::Nothing));
    }
    let settings = read_settings(settings)?;
    let elements = read_stream_elements(stream)?;
    if Piece::COUNT_GREATEST < elements.count {
        return Err(Refusal::Range.at(Place::Nothing));
    }
    judge(settings, elements.pieces)
}

// The layer that a settings text and a stream state, or the first refusal and zeros. In a frame of its own, as the reading of a text is.
#[inline(never)]
pub fn read_stream(settings: &[u8], stream: &[u8]) -> LayerRead
    ensures { HandedBack (read_stream settings.now stream.now) result }
{
    hand_back(read(settings, stream))
}
