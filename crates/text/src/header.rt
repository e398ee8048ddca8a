// The six lines before the pieces: the settings and the number of pieces.
ghost use Rattle.std.specs.Prelude.{◌≡◌, ◌+◌, ◌<◌, IfOk, OnOk};
ghost use Rattle.lines.specs.Readers.{answer_as};
ghost use Rattle.numerals.specs.Numerals.{cap};
ghost use Rattle.rules.specs.Questions.{HeaderRead, NumberRead, read_header, read_number};
ghost use Rattle.text.specs.Lines.{line_of};

use lines::Reader;
use rules::{Piece, Refusal, Refused, Settings};

// A line with one number: its key, and the range of the number.
#[derive(Clone, Copy)]
struct Expected {
    key: &'static [u8],
    least: u32,
    greatest: u32,
}

// The six lines in their order. No table holds them: the keys' addresses in it would be filled in as the library is loaded, and the
// library for C has no such data.
const MASKS: Expected = Expected {
    key: b"masks=",
    least: Settings::MASKS_LEAST,
    greatest: Settings::MASKS_GREATEST,
};

const SPACING: Expected = Expected {
    key: b"spacing=",
    least: Settings::SPACING_LEAST,
    greatest: Settings::SPACING_GREATEST,
};

const MARGIN: Expected = Expected {
    key: b"margin=",
    least: Settings::MARGIN_LEAST,
    greatest: Settings::MARGIN_GREATEST,
};

const WEIGHT: Expected = Expected {
    key: b"weight=",
    least: Settings::WEIGHT_LEAST,
    greatest: Settings::WEIGHT_GREATEST,
};

const BUDGET: Expected = Expected {
    key: b"budget=",
    least: Settings::BUDGET_LEAST,
    greatest: Settings::BUDGET_GREATEST,
};

const PIECES: Expected = Expected {
    key: b"pieces=",
    least: 0,
    greatest: Piece::COUNT_GREATEST as u32,
};

// The number of the next line, which is to be this one.
fn read_number(reader: &mut Reader, expected: Expected) -> Result<u32, Refused>
    requires small { expected.greatest < cap }
    requires room { reader.old.line < 4_294_967_295 }
    ensures number { answer_as {B = NumberRead} (λ n. record { number = n; rest = reader.new.rest.now }) result ≡ read_number (line_of expected) reader.old.line reader.old.rest.now }
    ensures line { OnOk result (reader.new.line ≡ reader.old.line + 1) }
{
    let place = reader.place();
    let [number] = reader.next_line::<1>(expected.key)?;
    if !(expected.least..=expected.greatest).contains(&number) {
        return Err(Refusal::Range.at(place));
    }
    Ok(number)
}

// The settings and the number of pieces, and the text after the six lines.
#[derive(Clone, Copy)]
pub struct Header<'a> {
    pub settings: Settings,
    pub count: usize,
    pub after: Reader<'a>,
}

// The six lines that a text begins with.
pub fn read_header(text: &[u8]) -> Result<Header<'_>, Refused>
    ensures header { answer_as {B = HeaderRead} (λ h. record { settings = h.settings; count = h.count; rest = h.after.rest.now }) result ≡ read_header text.now }
    ensures line { IfOk result (λ h. h.after.line ≡ 7) }
{
    let mut reader = Reader::new(text);
    let masks = read_number(&mut reader, MASKS)?;
    let spacing = read_number(&mut reader, SPACING)?;
    let margin = read_number(&mut reader, MARGIN)?;
    let weight = read_number(&mut reader, WEIGHT)?;
    let budget = read_number(&mut reader, BUDGET)?;
    let count = read_number(&mut reader, PIECES)?;
    let settings = Settings {
        masks,
        spacing,
        margin,
        weight,
        budget,
    };
    Ok(Header {
        settings,
        count: count as usize,
        after: reader,
    })
}
