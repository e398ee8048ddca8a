// PROPVALUE: digits that state a shape number, and a zero byte after an odd count of them.
ghost use Rattle.std.specs.Prelude.{true, ◌≡◌, min};
ghost use Rattle.rules.specs.Lines.{is_numeral, value};
ghost use Rattle.rules.specs.Stream.{unfilled};
ghost use Rattle.numerals.specs.Numerals.{cap};
ghost use Rattle.gds_data.specs.Shapes.{shape_of};

use numerals::read_numeral;

// The bytes without a zero byte at the end.
#[tactic(auto, using(crate::proofs::ShapeLaws::none_filled, crate::proofs::ShapeLaws::one_filled, crate::proofs::ShapeLaws::not_filled))]
fn unfilled(bytes: &[u8]) -> &[u8]
    ensures { result.now ≡ unfilled bytes.now }
{
    match bytes {
        [digits @ .., 0] => digits,
        _ => bytes,
    }
}

// The shape number that the bytes state, up to the cap.
#[tactic(auto, using(crate::proofs::ShapeLaws::no_numeral, crate::proofs::ShapeLaws::shape_told), unfolding(crate::specs::Shapes::shape_of))]
fn read_shape(bytes: &[u8]) -> Option<u32>
    ensures { result ≡ shape_of bytes.now }
{
    let numeral = read_numeral(unfilled(bytes))?;
    numeral.rest.is_empty().then_some(numeral.value)
}

// Whether the bytes state one.
#[tactic(auto, using(crate::proofs::ShapeLaws::told), unfolding(crate::specs::Shapes::shape_of))]
pub fn is_shape(bytes: &[u8]) -> bool
    ensures { result ≡ is_numeral (unfilled bytes.now) }
{
    read_shape(bytes).is_some()
}

// The number of bytes that state one. It reads again what `is_shape` has read: a record is judged before its data are used, and each of the two
// answers one question.
#[tactic(auto, unfolding(crate::specs::Shapes::shape_of))]
pub fn shape_number(bytes: &[u8]) -> u32
    requires { is_numeral (unfilled bytes.now) ≡ true }
    ensures { result ≡ min (value (unfilled bytes.now)) cap }
{
    read_shape(bytes).unwrap()
}
