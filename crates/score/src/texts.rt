// The score of the masks that one text states, on the layer that another one states.
ghost use Rattle.std.specs.Prelude.{◌≡◌};
ghost use Rattle.rules.specs.Answers.{answer_of};
ghost use Rattle.score.specs.Texts.{score_text, TextsScored};
ghost use Rattle.score.specs.declared.texts.Unscored.TheVariants.{Form, Question};

use crate::masks::{LineError, read_masks};
use rules::{Refused, Scoring};

// Refusals 2 to 6, 13 and 14 are those of the layer text, 7, 8 and 12 those of the masks.
fn score_layer(layer: &[u8], masks: &[u8]) -> Result<Scoring, Refused>
    ensures { answer_of result ≡ score_text layer.now masks.now }
{
    let read = text::read_layer(layer);
    read.answer?;
    scoring::score(read.settings, read.lent(), masks)
}

// Why there is no score: a line that is no mask line, or a refusal of the layer or its masks.
#[derive(Clone, Copy, Debug, PartialEq, Eq)]
pub enum Unscored {
    Form(LineError),
    Question(Refused),
}

impl From<LineError> for Unscored {
    ghost from_gives = { λ bad e. e ≡ Form bad };

    fn from(bad: LineError) -> Unscored {
        Unscored::Form(bad)
    }
}

impl From<Refused> for Unscored {
    ghost from_gives = { λ refused e. e ≡ Question refused };

    fn from(refused: Refused) -> Unscored {
        Unscored::Question(refused)
    }
}

// The form of the mask lines comes first: if one is bad, the layer is not looked at.
pub fn score_texts(layer: &[u8], text: &[u8]) -> Result<Scoring, Unscored>
    ensures { TextsScored layer.now text.now result }
{
    let masks = read_masks(text)?;
    Ok(score_layer(layer, &masks)?)
}
