// The masks of a text that is made of mask lines, as in a result text (RULES 10).
ghost use Rattle.std.specs.Prelude.{◌≡◌, MatchOption, MatchResult};
ghost use Rattle.score.specs.Masks.{mask_of, MaskRead, NoMaskLine, AllStored, BadLine};

use arrayvec::ArrayVec;
use std::fmt;
use std::fmt::Display;

// The mask that a number is handed on as. A number above 255 is no mask of any layer, and neither is 254, so question 8 refuses it
// at its piece. It is not made 255, which says that a piece is not set.
fn mask_of(number: u32) -> u8
    ensures { result ≡ mask_of number }
{
    u8::try_from(number).unwrap_or(254)
}

// The mask of the text's first line, and the text after it, if that is a mask line.
fn split_mask(text: &[u8]) -> Option<(u8, &[u8])>
    ensures { MatchOption result (NoMaskLine text.now) (λ split. MaskRead text.now split.0 split.1.now) }
{
    let line = lines::read_line::<1>(text, b"mask=")?;
    Some((mask_of(line.values[0]), line.rest))
}

// The first line, from 1, that is no mask line.
#[derive(Clone, Copy, Debug, PartialEq, Eq)]
pub struct LineError {
    pub line: usize,
}

impl Display for LineError {
    fn fmt<W: fmt::Write>(&self, f: &mut fmt::Formatter<W>) -> fmt::Result {
        write!(
            f,
            "line {} is not mask=NUMBER, byte 10 (RULES 9)",
            self.line
        )
    }
}

// The masks of the text's lines, as many as there is room for: one more than any layer has pieces, and question 7 refuses so many. Lines for which there
// is no room are judged for their form alone. A text may have more lines than the `Reader` of `lines` counts, and an iterator over them would hand on
// masks or a bad line, whose number is counted all the same.
pub fn read_masks(text: &[u8]) -> Result<ArrayVec<u8, 513>, LineError>
    ensures { MatchResult result (λ masks. AllStored text.now masks.items) (λ bad. BadLine text.now bad.line) }
{
    let mut masks = ArrayVec::new();
    let mut rest = text;
    let mut line = 1;
    while !rest.is_empty() {
        let (mask, after) = split_mask(rest).ok_or(LineError { line })?;
        if !masks.is_full() {
            masks.push(mask);
        }
        rest = after;
        line += 1;
    }
    Ok(masks)
}
