// Numbers to base ten, read (RULES 9). A number of any length has good form, so a value above the cap, 2^32 - 1, is read as the cap, which lies
// above every range. The readers of lines and of GDSII data stand on this crate, and the writer of lines on its laws.
#![tactic(auto)]

ghost use Rattle.std.specs.Prelude.{true, ◌≡◌, min};
ghost use Rattle.rules.specs.Lines.{all_digits, value};
ghost use Rattle.numerals.specs.Numerals.{cap, digits_in, numeral_as, numeral_of};

// A numeral at the start of a text: its value, and the text after it.
#[derive(Clone, Copy)]
pub struct Numeral<'a> {
    pub value: u32,
    pub rest: &'a [u8],
}

// How many digits the text starts with.
fn leading_digits(text: &[u8]) -> usize
    ensures { result ≡ digits_in text.now }
{
    text.iter().take_while(|b| b.is_ascii_digit()).count()
}

// The number that digits state, or the cap. A value at the cap never falls below it again.
fn value_of(digits: &[u8]) -> u32
    requires { all_digits digits.now ≡ true }
    ensures { result ≡ min (value digits.now) cap }
{
    let mut total: u32 = 0;
    for b in digits {
        total = total.saturating_mul(10).saturating_add(u32::from(b - b'0'));
    }
    total
}

// The numeral that the text starts with.
pub fn read_numeral(text: &[u8]) -> Option<Numeral<'_>>
    ensures { numeral_as result ≡ numeral_of text.now }
{
    let (digits, rest) = text.split_at(leading_digits(text));
    match digits {
        [] => None,
        [b'0', _, ..] => None,
        _ => Some(Numeral {
            value: value_of(digits),
            rest,
        }),
    }
}
