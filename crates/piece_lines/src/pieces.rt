// The piece lines. A line's form is judged whole before any range, and its ranges before its area. After a refusal it is not said how far
// the reader has come.
ghost use Rattle.std.specs.Prelude.{◌≡◌, ◌+◌, ◌<◌, ◌≤◌, IfOk, OnOk, length};
ghost use Rattle.lines.specs.Readers.{answer_as};
ghost use Rattle.rules.specs.Questions.{PieceRead, PiecesRead, read_piece, read_pieces};

use crate::records::Pieces;
use layout::judge_piece;
use lines::Reader;
use rules::{Piece, Refused};

// The next line, which is to state a piece.
fn read_piece(reader: &mut Reader) -> Result<Piece, Refused>
    requires { reader.old.line < 4_294_967_295 }
    ensures piece { answer_as {B = PieceRead} (λ p. record { piece = p; rest = reader.new.rest.now }) result ≡ read_piece reader.old.line reader.old.rest.now }
    ensures line { OnOk result (reader.new.line ≡ reader.old.line + 1) }
{
    let place = reader.place();
    let piece = Piece::from(reader.next_line(b"piece=")?);
    judge_piece(place, piece)?;
    Ok(piece)
}

// As many piece lines as stated.
pub fn read_pieces(reader: &mut Reader, count: usize) -> Result<Pieces, Refused>
    requires few { count ≤ 512 }
    requires room { reader.old.line + count ≤ 4_294_967_295 }
    ensures pieces { answer_as {B = PiecesRead} (λ ps. record { pieces = ps; rest = reader.new.rest.now }) result ≡ read_pieces count reader.old.line reader.old.rest.now }
    ensures many { IfOk result (λ ps. length ps ≡ count) }
    ensures line { OnOk result (reader.new.line ≡ reader.old.line + count) }
{
    let mut pieces = Pieces::none();
    for _ in 0..count {
        pieces.push(read_piece(reader)?);
    }
    Ok(pieces)
}
