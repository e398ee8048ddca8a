// The calls on the first records of a layer, and a line on how each came out. A case here is one call, with what it is to come to.
ghost use Rattle.std.specs.Prelude.{◌≡◌, ◌≤◌};

use crate::layers::{Layer, records_of};
use crate::outcomes::{Done, Outcome};
use rules::{Refused, Settings};
use std::io;

// A name, and the first pieces of a layer, with the number of masks that they are divided over.
#[derive(Clone, Copy)]
pub struct Case {
    pub name: &'static str,
    pub layer: Layer,
    pub pieces: usize,
    pub masks: u32,
    ghost there: { pieces ≤ 513 },
}

impl Case {
    // On two masks.
    pub fn new(name: &'static str, layer: Layer, pieces: usize) -> Case
        requires { pieces ≤ 513 }
        ensures { (h : _) × (result ≡ record { name = name.entry; layer = layer; pieces = pieces; masks = 2; there = h }) }
    {
        Case {
            name,
            layer,
            pieces,
            masks: 2,
        }
    }

    // The same under another name.
    pub fn named(mut self, name: &'static str) -> Case
        ensures { result ≡ record self { name = name.entry } }
    {
        self.name = name;
        self
    }

    // The same on so many masks.
    pub fn on(mut self, masks: u32) -> Case
        ensures { result ≡ record self { masks = masks } }
    {
        self.masks = masks;
        self
    }

    fn settings(self) -> Settings
        ensures { result ≡ record { masks = self.masks; spacing = 80; margin = 10; weight = 10; budget = 100 } }
    {
        Settings {
            masks: self.masks,
            spacing: 80,
            margin: 10,
            weight: 10,
            budget: 100,
        }
    }

    // A line with the case's name, and what came instead where it is not what the rules state.
    fn report(
        self,
        rt: &impl Print,
        answer: Result<Done, Refused>,
        kept: bool,
        wanted: Result<Done, Refused>,
    ) -> io::Result<()> {
        let name = self.name;
        let came = Outcome { answer, kept };
        let wanted = Outcome {
            answer: wanted,
            kept: true,
        };
        if came == wanted {
            println!(rt; "{name}: as stated")
        } else {
            println!(rt; "{name}: DIFFERS: {came}")
        }
    }

    // Scores these masks.
    pub fn score(
        self,
        rt: &impl Print,
        masks: &[u8],
        wanted: Result<Done, Refused>,
    ) -> io::Result<()> {
        let records = records_of(self.layer);
        let lent = &records[..self.pieces];
        let came = records::score(self.settings(), lent, masks);
        let answer = came.map(Done::Scored);
        self.report(rt, answer, true, wanted)
    }

    // Decomposes, with a list of masks that are all 9 and must then be these.
    pub fn decompose(
        self,
        rt: &impl Print,
        after: &[u8],
        wanted: Result<Done, Refused>,
    ) -> io::Result<()> {
        let records = records_of(self.layer);
        let lent = &records[..self.pieces];
        let mut list = [9u8; 513];
        let masks = &mut list[..after.len().min(513)];
        let came = records::decompose(self.settings(), lent, masks);
        let answer = came.map(Done::Decomposed);
        self.report(rt, answer, &*masks == after, wanted)
    }

    // Writes the layer's text into a buffer of zeros, which must then be this one.
    pub fn write(
        self,
        rt: &impl Print,
        after: &[u8],
        wanted: Result<Done, Refused>,
    ) -> io::Result<()> {
        let records = records_of(self.layer);
        let lent = &records[..self.pieces];
        let mut zeros = [0u8; 65_536];
        let buffer = &mut zeros[..after.len().min(65_536)];
        let came = records::write_layer(self.settings(), lent, buffer);
        let answer = came.map(Done::Written);
        self.report(rt, answer, &*buffer == after, wanted)
    }
}
