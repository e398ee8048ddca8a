// The records of a stream read one after the other.
ghost use Rattle.std.specs.Prelude.{◌≡◌, ◌+◌, ◌<◌, ◌≤◌, length, OnErr, OnOk};
ghost use Rattle.rules.specs.declared.refusal.Place.{Place};
ghost use Rattle.rules.specs.Stream.{is_due};
ghost use Rattle.gds_records.specs.Kinds.{due_of};
ghost use Rattle.gds_records.specs.Records.{ReadTold, PassTold};

use crate::kinds::Kind;
use crate::records::{is_due, read_record};
use rules::{Place, Refused};

// What is left of a stream, and the number of its first record, from 1. Each record has a byte at least.
#[derive(Clone, Copy)]
pub struct Records<'a> {
    pub rest: &'a [u8],
    pub number: u32,
    ghost room: { number + length rest.now ≤ 4_294_967_295 },
}

impl<'a> Records<'a> {
    // From the first record of a stream on.
    pub fn new(stream: &'a [u8]) -> Records<'a>
        requires { length stream.now < 4_294_967_295 }
        ensures rest { result.rest.now ≡ stream.entry.now }
        ensures number { result.number ≡ 1 }
    {
        Records {
            rest: stream,
            number: 1,
        }
    }

    // Where the next record stands.
    pub fn place(&self) -> Place
        ensures { result ≡ Place.Record self.now.number }
    {
        Place::Record(self.number)
    }

    // Whether the next record is whole and of this kind.
    pub fn is_due(&self, kind: Kind) -> bool
        ensures { result ≡ is_due (due_of kind) self.now.rest.now }
    {
        is_due(self.rest, kind)
    }

    // The data of the next record, which is to be of this kind.
    pub fn read(&mut self, kind: Kind) -> Result<&'a [u8], Refused>
        ensures record { ReadTold kind self.old.number self.old.rest.now self.new.rest.now result }
        ensures number { OnOk result (self.new.number ≡ self.old.number + 1) }
        ensures refused { OnErr result (self.new ≡ self.old) }
    {
        let record = read_record(self.rest, kind, self.number)?;
        self.rest = record.rest;
        self.number += 1;
        Ok(record.bytes)
    }

    // Passes the next records, which are to be of these kinds. After a refusal it is not said how far the reader has come.
    #[tactic(auto, using(crate::proofs::RecordLaws::none_left, crate::proofs::RecordLaws::passes, crate::proofs::RecordLaws::stops))]
    pub fn pass(&mut self, kinds: &[Kind]) -> Result<(), Refused>
        ensures records { PassTold kinds.now self.old.number self.old.rest.now self.new.rest.now result }
        ensures number { OnOk result (self.new.number ≡ self.old.number + length kinds.now) }
    {
        for kind in kinds {
            self.read(*kind)?;
        }
        Ok(())
    }
}
