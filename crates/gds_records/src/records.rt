// One record: the one that is due, with its data judged.
ghost use Rattle.std.specs.Prelude.{false, ◌≡◌, length, MatchOption};
ghost use Rattle.rules.specs.Stream.{is_due};
ghost use Rattle.gds_records.specs.Kinds.{due_of};
ghost use Rattle.gds_records.specs.Records.{Room, Due, RecordTold};

use crate::kinds::Kind;
use byteorder::{BigEndian, ByteOrder};
use gds_data::{is_nanometre, is_rectangle, is_shape};
use rules::{Place, Refusal, Refused};

// The data of a record, and the bytes after it.
#[derive(Clone, Copy)]
pub struct Record<'a> {
    pub bytes: &'a [u8],
    pub rest: &'a [u8],
}

// The record that the bytes start with, if it is whole and of this kind.
#[tactic(auto, unfolding(rules::specs::Stream::is_due))]
fn due_record(bytes: &[u8], kind: Kind) -> Option<Record<'_>>
    ensures { MatchOption result (is_due (due_of kind) bytes.now ≡ false) (λ r. Due kind bytes.now r.bytes.now r.rest.now) }
{
    let &[high, low, record_type, data_type, ..] = bytes else {
        return None;
    };
    let size = usize::from(u16::from_be_bytes([high, low]));
    let form = kind.form();
    let least = 4 + usize::from(form.least);
    let greatest = 4 + usize::from(form.greatest);
    if size <= bytes.len()
        && (least..=greatest).contains(&size)
        && size % 2 == 0
        && record_type == form.record_type
        && data_type == form.data_type
    {
        Some(Record {
            bytes: &bytes[4..size],
            rest: &bytes[size..],
        })
    } else {
        None
    }
}

// Whether the data of a record of this kind are right.
fn is_right(bytes: &[u8], kind: Kind) -> bool
    requires { Room kind (length bytes.now) }
    ensures { result ≡ (due_of kind).right bytes.now }
{
    match kind {
        Kind::Units => is_nanometre(bytes),
        Kind::Xy => is_rectangle(bytes),
        Kind::Propattr => BigEndian::read_u16(bytes) == 1,
        Kind::Propvalue => is_shape(bytes),
        _ => true,
    }
}

// Whether the bytes start with a whole record of this kind.
pub fn is_due(bytes: &[u8], kind: Kind) -> bool
    ensures { result ≡ is_due (due_of kind) bytes.now }
{
    due_record(bytes, kind).is_some()
}

// The record that the bytes start with, which is to be of this kind and is record k.
#[tactic(auto, unfolding(rules::specs::Stream::read_record))]
pub fn read_record(bytes: &[u8], kind: Kind, k: u32) -> Result<Record<'_>, Refused>
    ensures { RecordTold kind k bytes.now result }
{
    let place = Place::Record(k);
    let record = due_record(bytes, kind).ok_or(Refusal::Record.at(place))?;
    if !is_right(record.bytes, kind) {
        return Err(kind.refusal().at(place));
    }
    Ok(record)
}
