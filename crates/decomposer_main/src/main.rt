// Decomposes a made layer for every four arguments: masks, seed, pieces and budget. What it writes is compared with the file stdout, and
// bench/ measures it.
#![tactic(auto)]

ghost use Rattle.std.specs.Prelude.{◌+◌, ◌<◌, ◌≤◌};

use rules::{Decomposition, Piece, Refused, Score, Settings};
use std::env::Env;
use std::{array, io, str};

// ---- the answer

fn write_answer(rt: &impl Print, answer: Result<Decomposition, Refused>) -> io::Result<()> {
    match answer {
        Ok(
            Decomposition {
                score: Score {
                    conflicts,
                    stitches,
                    cost,
                },
                steps,
                verdict,
            },
        ) => print!(rt;
            "conflicts={conflicts} stitches={stitches} cost={cost} steps={steps} {verdict}"
        ),
        Err(refused) => print!(rt; "refused={refused}"),
    }
}

// A checksum, which a change of one mask always changes.
fn digest(masks: &[u8]) -> u32 {
    masks.iter().fold(0u32, |sum, mask| {
        sum.wrapping_mul(31).wrapping_add(u32::from(*mask) + 1)
    })
}

// ---- made layers

// A generator of numbers, which its last one determines.
#[derive(Clone, Copy)]
struct Draws {
    last: u32,
}

impl Draws {
    fn next(&mut self) -> u32 {
        self.last = self
            .last
            .wrapping_mul(1_664_525)
            .wrapping_add(1_013_904_223);
        self.last
    }

    // A coordinate of the grid of 32 by 32 places, 40 nm apart.
    fn coordinate(&mut self) -> u32
        ensures { result ≤ 1240 }
    {
        40 * (self.next() / 65_536 % 32)
    }

    // A square of 20 nm at a place of that grid.
    fn square(&mut self, shape: u32) -> Piece {
        let x1 = self.coordinate();
        let y1 = self.coordinate();
        Piece::from([shape, x1, y1, x1 + 20, y1 + 20])
    }
}

// What a layer is made from, and how it is decomposed.
#[derive(Clone, Copy)]
struct Made {
    masks: u32,
    seed: u32,
    pieces: u32,
    budget: u32,
}

impl Made {
    // What the four arguments from i on say, if they are numbers.
    fn of_arguments(rt: &impl Env, i: usize) -> Option<Made>
        requires { i + 3 < 18446744073709551616 }
    {
        Some(Made {
            masks: number(rt, i)?,
            seed: number(rt, i + 1)?,
            pieces: number(rt, i + 2)?,
            budget: number(rt, i + 3)?,
        })
    }

    fn settings(self) -> Settings {
        Settings {
            masks: self.masks,
            spacing: 80,
            margin: 10,
            weight: 10,
            budget: self.budget,
        }
    }

    // Each piece is of a shape of its own, and none has a fixed mask.
    fn layer(self) -> [Piece; 513] {
        let mut draws = Draws { last: self.seed };
        array::from_fn(|i| draws.square(i as u32))
    }

    // More pieces than there can be are lent all the same: the call is to refuse them.
    fn show(self, rt: &impl Print) -> io::Result<()> {
        let Made {
            masks,
            seed,
            pieces,
            budget,
        } = self;
        print!(rt; "made masks={masks} seed={seed} pieces={pieces} budget={budget}: ")?;
        let layer = self.layer();
        let made = &layer[..layer.len().min(pieces as usize)];
        let mut list = [9u8; 512];
        let room = list.len().min(pieces as usize);
        let answer = decomposer::decompose_layer(self.settings(), made, &mut list[..room]);
        write_answer(rt, answer)?;
        println!(rt; " digest={}", digest(&list[..room]))
    }
}

// ---- arguments

// The number that digits state. The library's `parse` takes a sign too.
fn parsed(digits: &[u8]) -> Option<u32> {
    if !digits.iter().all(|byte| byte.is_ascii_digit()) {
        return None;
    }
    str::from_utf8(digits).ok()?.parse().ok()
}

fn number(rt: &impl Env, i: usize) -> Option<u32> {
    let mut text = [0u8; 4_096];
    parsed(files::argument(rt, i, &mut text)?)
}

fn main(rt: HostRuntime) -> io::Result<()> {
    let count = files::argument_count(&rt);
    if count % 4 != 1 {
        return println!(rt; "give MASKS SEED PIECES BUDGET for each made layer");
    }
    for group in 0..count / 4 {
        let Some(made) = Made::of_arguments(&rt, 4 * group + 1) else {
            return println!(rt; "an argument is no decimal number below 2^32");
        };
        made.show(&rt)?;
    }
    Ok(())
}
