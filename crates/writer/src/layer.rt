// The layer text of lent pieces.
ghost use Rattle.std.specs.Prelude.{◌≡◌, ◌≤◌, length};
ghost use Rattle.rules.specs.Answers.{answer_of, length_of};
ghost use Rattle.rules.specs.Calls.{write_layer, buffer_after};
ghost use Rattle.rules.specs.Lines.{number_lines};
ghost use Rattle.rules.specs.LayerText.{header_keys, header_numbers, piece_lines, fixed_line, fixed_lines, layer_text};
ghost use Rattle.rules.specs.Questions.{done};
ghost use Rattle.line_writer.specs.Writing.{HasRoom, Wrote};

use line_writer::Writer;
use rules::{Piece, Place, Refusal, Refused, Settings, ValidLayer, stated_mask};

// The six lines before the pieces. Their keys stand here beside the numbers, and where they are read beside the ranges: that both are the rules' (`header_keys`) is
// promised, so neither can differ from the other.
fn write_header(out: &mut Writer, settings: Settings, count: u32)
    requires { HasRoom out.old (number_lines header_keys (header_numbers settings count)) }
    ensures { Wrote out.old (number_lines header_keys (header_numbers settings count)) out.new }
{
    out.number_lines(&[
        (b"masks=", settings.masks),
        (b"spacing=", settings.spacing),
        (b"margin=", settings.margin),
        (b"weight=", settings.weight),
        (b"budget=", settings.budget),
        (b"pieces=", count),
    ]);
}

fn write_pieces(out: &mut Writer, pieces: &[Piece])
    requires { HasRoom out.old (piece_lines pieces.now) }
    ensures { Wrote out.old (piece_lines pieces.now) out.new }
{
    for piece in pieces {
        let numbers = [piece.shape, piece.x1, piece.y1, piece.x2, piece.y2];
        out.line(b"piece=", &numbers);
    }
}

// The line that fixes the mask of piece i, where it has a fixed one.
fn write_fixed_line(out: &mut Writer, i: u32, piece: Piece)
    requires { HasRoom out.old (fixed_line i piece) }
    ensures { Wrote out.old (fixed_line i piece) out.new }
{
    if let Some(mask) = stated_mask(piece.fixed) {
        out.line(b"fixed=", &[i, u32::from(mask)]);
    }
}

// These lines of the pieces, in rising order.
fn write_fixed(out: &mut Writer, pieces: &[Piece])
    requires few { length pieces.now ≤ 512 }
    requires room { HasRoom out.old (fixed_lines 0 pieces.now) }
    ensures { Wrote out.old (fixed_lines 0 pieces.now) out.new }
{
    for (i, piece) in pieces.iter().enumerate() {
        write_fixed_line(out, i as u32, *piece);
    }
}

// Writes the text of a layer at the front of a buffer that has room for it, and answers its length.
#[tactic(auto, using(rules::proofs::Validity::layer_facts))]
fn write_text(layer: &ValidLayer, buffer: &mut [u8]) -> usize
    requires { 32_768 ≤ length buffer.old }
    ensures length { result ≡ length (layer_text layer.now.settings layer.now.pieces.now) }
    ensures written { buffer.new ≡ buffer_after (done (layer_text layer.now.settings layer.now.pieces.now)) buffer.old }
{
    let mut out = Writer::new(buffer);
    write_header(&mut out, layer.settings, layer.pieces.len() as u32);
    write_pieces(&mut out, layer.pieces);
    write_fixed(&mut out, layer.pieces);
    out.len()
}

// Writes the text of any layer, or gives the first of the refusals 1, 4 to 6, 13 and 14 and leaves the buffer as it was.
#[tactic(auto, unfolding(rules::specs::Calls::write_layer))]
pub fn write_layer(
    settings: Settings,
    pieces: &[Piece],
    buffer: &mut [u8],
) -> Result<usize, Refused>
    ensures answer { answer_of result ≡ length_of (write_layer settings pieces.now buffer.old) }
    ensures written { buffer.new ≡ buffer_after (write_layer settings pieces.now buffer.old) buffer.old }
{
    if buffer.len() < 32_768 {
        return Err(Refusal::Buffer.at(Place::Nothing));
    }
    let layer = fixed_masks::judge(settings, pieces)?;
    Ok(write_text(&layer, buffer))
}
