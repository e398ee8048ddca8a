// The lines that fix masks, which follow the piece lines. Their pieces rise, so a line that goes back is out of form. After a refusal the place
// of the reader is free.
ghost use Rattle.std.specs.Prelude.{◌≡◌, ◌+◌, ◌<◌, ◌≤◌, OnOk, [], length};
ghost use Rattle.lines.specs.Readers.{answer_as};
ghost use Rattle.rules.specs.Answers.{answer_of};
ghost use Rattle.rules.specs.Questions.{FixedRead, read_fixed, read_all_fixed};

use crate::records::Pieces;
use lines::Reader;
use rules::{Refusal, Refused};

// A piece and the mask that a line fixes for it.
#[derive(Clone, Copy)]
struct Fixed {
    piece: u32,
    mask: u8,
}

// The next line, which is to fix the mask of one of the pieces from the least on.
fn read_fixed(
    reader: &mut Reader,
    least: u32,
    pieces: &Pieces,
    masks: u32,
) -> Result<Fixed, Refused>
    requires masks { masks ≤ 8 }
    requires room { reader.old.line < 4_294_967_295 }
    ensures fixed { answer_as {B = FixedRead} (λ f. record { piece = f.piece; mask = f.mask; rest = reader.new.rest.now }) result ≡ read_fixed masks (length pieces.now) least reader.old.line reader.old.rest.now }
    ensures line { OnOk result (reader.new.line ≡ reader.old.line + 1) }
{
    let place = reader.place();
    let [piece, mask] = reader.next_line::<2>(b"fixed=")?;
    if piece < least {
        return Err(Refusal::Form.at(place));
    }
    if pieces.len() <= piece as usize || masks <= mask {
        return Err(Refusal::FixedRange.at(place));
    }
    Ok(Fixed {
        piece,
        mask: mask as u8,
    })
}

// All lines up to the end of the text, with the pieces whose masks they fix. The line's number after them is not said, since nothing follows. The bound
// on masks is one of one number, as the weight's is at `counting::cost_of`.
pub fn read_all_fixed(
    reader: &mut Reader,
    masks: u32,
    mut pieces: Pieces,
) -> Result<Pieces, Refused>
    requires masks { masks ≤ 8 }
    requires room { reader.old.line + length pieces < 4_294_967_295 }
    ensures pieces { answer_of result ≡ read_all_fixed (length reader.old.rest.now) masks 0 reader.old.line pieces reader.old.rest.now }
    ensures rest { OnOk result (reader.new.rest.now ≡ []) }
{
    let mut least = 0;
    while !reader.rest.is_empty() {
        let fixed = read_fixed(reader, least, &pieces, masks)?;
        pieces.fix(fixed.piece as usize, fixed.mask);
        least = fixed.piece + 1;
    }
    Ok(pieces)
}
