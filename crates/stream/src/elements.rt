// The elements of a stream: the records before them, the elements, the records after them, and nothing but zero bytes.
ghost use Rattle.std.specs.Prelude.{◌≡◌, ◌≤◌, length, ltb};
ghost use Rattle.rules.specs.Basics.{any_of};
ghost use Rattle.stream.specs.Reading.{ElementsTold};

use gds_elements::{Elements, read_elements};
use gds_records::{Kind, Records};
use rules::{Refusal, Refused};

// The records before the elements.
const FRONT: [Kind; 6] = [
    Kind::Header,
    Kind::Bgnlib,
    Kind::Libname,
    Kind::Units,
    Kind::Bgnstr,
    Kind::Strname,
];

// Whether there is a byte other than zero.
fn has_byte(bytes: &[u8]) -> bool
    ensures { result ≡ any_of (ltb 0) bytes.now }
{
    bytes.iter().any(|b| 0 < *b)
}

// The elements that a stream states, or the first of the refusals 9 to 11.
#[tactic(auto, unfolding(rules::specs::Stream::read_stream_elements))]
pub fn read_stream_elements(stream: &[u8]) -> Result<Elements, Refused>
    requires { length stream.now ≤ 65_536 }
    ensures { ElementsTold stream.now result }
{
    let mut records = Records::new(stream);
    records.pass(&FRONT)?;
    let elements = read_elements(&mut records)?;
    records.pass(&[Kind::Endstr, Kind::Endlib])?;
    if has_byte(records.rest) {
        return Err(Refusal::Record.at(records.place()));
    }
    Ok(elements)
}
