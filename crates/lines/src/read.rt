// A line of a text: a key, numbers with a comma between two, byte 10. Each function takes the part of the text
// that starts where it reads.
ghost use Rattle.std.specs.Prelude.{◌≡◌, ◌≤◌};
ghost use Rattle.rules.specs.Lines.{parts_of, numbers_of, line_of};
ghost use Rattle.numerals.specs.Numerals.{numeral_as};
ghost use Rattle.lines.specs.ReadLines.{next_numeral, numbers_read, line_as, line_read};

use numerals::{Numeral, read_numeral};

// A comma and the numeral after it.
#[tactic(auto, using(crate::proofs::NumberParts::next_other, crate::proofs::NumberParts::next_comma))]
fn read_next(text: &[u8]) -> Option<Numeral<'_>>
    ensures { numeral_as result ≡ next_numeral text.now }
{
    read_numeral(text.strip_prefix(b",")?)
}

// Numbers with a comma between two, to the text's end. By index: no part of an array whose length is a const parameter can be lent to a loop.
#[tactic(auto, using(crate::proofs::NumberParts::read_nothing, crate::proofs::NumberParts::read_stop, crate::proofs::NumberParts::read_ends))]
fn read_numbers<const N: usize>(text: &[u8]) -> Option<[u32; N]>
    requires { 1 ≤ N }
    ensures { result ≡ numbers_read (numbers_of N (parts_of text.now)) }
{
    let mut numeral = read_numeral(text)?;
    let mut values = [0u32; N];
    values[0] = numeral.value;
    for k in 1..N {
        numeral = read_next(numeral.rest)?;
        values[k] = numeral.value;
    }
    numeral.rest.is_empty().then_some(values)
}

// A line that was read: its numbers, each up to the cap, and the text after it.
#[derive(Clone, Copy)]
pub struct Line<'a, const N: usize> {
    pub values: [u32; N],
    pub rest: &'a [u8],
}

// The text's first line, if it has this key and as many numbers as expected.
pub fn read_line<'a, const N: usize>(text: &'a [u8], key: &[u8]) -> Option<Line<'a, N>>
    requires { 1 ≤ N }
    ensures { line_as result ≡ line_read (line_of key.now N text.now) }
{
    let end = text.iter().position(|b| *b == b'\n')?;
    let line = &text[..end];
    let values = read_numbers(line.strip_prefix(key)?)?;
    Some(Line {
        values,
        rest: &text[end + 1..],
    })
}
