// The settings text: the six lines of a layer text that has no pieces.
ghost use Rattle.std.specs.Prelude.{◌≡◌};
ghost use Rattle.rules.specs.Answers.{answer_of};
ghost use Rattle.rules.specs.Stream.{read_settings};

use rules::{Place, Refusal, Refused, Settings};
use text::read_header;

// The settings that a text states, or the first of the refusals 3 and 4.
#[tactic(auto, unfolding(rules::specs::Stream::read_settings))]
pub fn read_settings(text: &[u8]) -> Result<Settings, Refused>
    ensures { answer_of result ≡ read_settings text.now }
{
    let header = read_header(text)?;
    if header.count != 0 {
        return Err(Refusal::Range.at(Place::Line(6)));
    }
    if !header.after.rest.is_empty() {
        return Err(Refusal::Form.at(Place::Line(7)));
    }
    Ok(header.settings)
}
