// A text from one of its lines on, read line by line.
ghost use Rattle.std.specs.Prelude.{◌≡◌, ◌+◌, ◌<◌, ◌≤◌, OnErr, OnOk};
ghost use Rattle.rules.specs.declared.refusal.Place.{Place};
ghost use Rattle.rules.specs.Lines.{NumbersRead};
ghost use Rattle.rules.specs.Questions.{read_line};
ghost use Rattle.lines.specs.Readers.{answer_as, capped_line};

use crate::read::read_line;
use rules::{Place, Refusal, Refused};

// What is left of the text, and the number of its first line. No ghost field says that the number has room: a header is read from a text of any
// length, and that may have more lines than 32 bits count. So each function that reads a line asks for room.
#[derive(Clone, Copy)]
pub struct Reader<'a> {
    pub rest: &'a [u8],
    pub line: u32,
}

impl<'a> Reader<'a> {
    // The whole text.
    pub fn new(text: &'a [u8]) -> Reader<'a>
        ensures rest { result.rest.now ≡ text.entry.now }
        ensures line { result.line ≡ 1 }
    {
        Reader {
            rest: text,
            line: 1,
        }
    }

    // Where the next line stands.
    pub fn place(&self) -> Place
        ensures { result ≡ Place.Line self.now.line }
    {
        Place::Line(self.line)
    }

    // The numbers of the next line, which is to have this key, each up to the cap.
    pub fn next_line<const N: usize>(&mut self, key: &[u8]) -> Result<[u32; N], Refused>
        requires count { (1 ≤ N) × (N ≤ 5) }
        requires room { self.old.line < 4_294_967_295 }
        ensures read { answer_as {B = NumbersRead} (λ ns. record { numbers = ns; rest = self.new.rest.now }) result ≡ capped_line (read_line key.now N self.old.line self.old.rest.now) }
        ensures line { OnOk result (self.new.line ≡ self.old.line + 1) }
        ensures refused { OnErr result (self.new ≡ self.old) }
    {
        // The borrow check does not cover `ok_or` on what holds a slice and takes a const parameter.
        let Some(line) = read_line(self.rest, key) else {
            return Err(Refusal::Form.at(self.place()));
        };
        self.rest = line.rest;
        self.line += 1;
        Ok(line.values)
    }
}
