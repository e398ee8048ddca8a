// Runs the worked cases of RULES 13, 17 and 18 through the calls, and reports of each whether it came out as stated there: those that are
// stored as texts, and the gaps and contacts.
#![tactic(auto)]

ghost use Rattle.std.specs.Prelude.{◌<◌};

use files::{argument, argument_count, read_file};
use rules::{Edge, Piece, Refused, Settings};
use std::io;
use std::rt::{Env, Files};

// ---- texts: for every two arguments, a layer text and what `layer` is to print for it

// A line with a case's name. The name is a path, and so its bytes are printed as they are.
fn as_stated(rt: &impl Print, name: &[u8]) -> io::Result<()> {
    rt.write_all(name)?;
    println!(rt; ": as stated")
}

// A text that was to be the one that is wanted.
fn report_text(rt: &impl Print, name: &[u8], came: &[u8], wanted: &[u8]) -> io::Result<()> {
    if came == wanted {
        return as_stated(rt, name);
    }
    rt.write_all(name)?;
    println!(rt; ": DIFFERS")?;
    rt.write_all(came)
}

// A refusal that was to be the one of the line that is wanted.
fn report_refusal(rt: &impl Print, name: &[u8], came: Refused, wanted: &[u8]) -> io::Result<()> {
    let stated = lines::read_line::<2>(wanted, b"refused=").map(|line| line.values);
    if stated == Some([came.refusal.number(), came.place.number()]) {
        return as_stated(rt, name);
    }
    rt.write_all(name)?;
    println!(rt; ": DIFFERS: refused={came}")
}

// Where a file is not read, standard error has the reason, and the case is run on an empty text in its place: nothing asks later whether it was read.
fn run_files(rt: &(impl Files + Print + Eprint), layer: &[u8], expected: &[u8]) -> io::Result<()> {
    let mut layer_text = [0u8; 65_536];
    let mut expected_text = [0u8; 4_096];
    let mut buffer = [0u8; 4_096];
    let text = read_file(rt, layer, &mut layer_text).unwrap_or(&[]);
    let wanted = read_file(rt, expected, &mut expected_text).unwrap_or(&[]);
    match loader::decompose_text(text, &mut buffer) {
        Ok(length) => report_text(rt, layer, &buffer[..length], wanted),
        Err(refused) => report_refusal(rt, layer, refused, wanted),
    }
}

// The case of arguments i and i + 1. One that is missing or longer than a path can be is an empty path.
fn run_arguments(rt: &(impl Env + Files + Print + Eprint), i: usize) -> io::Result<()>
    requires { i < 18446744073709551615 }
{
    let mut first = [0u8; 4_096];
    let mut second = [0u8; 4_096];
    let layer = argument(rt, i, &mut first).unwrap_or(&[]);
    let expected = argument(rt, i + 1, &mut second).unwrap_or(&[]);
    run_files(rt, layer, expected)
}

fn texts(rt: &(impl Env + Files + Print + Eprint)) -> io::Result<()> {
    for k in 0..argument_count(rt) / 2 {
        run_arguments(rt, 2 * k + 1)?;
    }
    Ok(())
}

// ---- gaps and contacts, by the call for two pieces

const SETTINGS: Settings = Settings {
    masks: 2,
    spacing: 80,
    margin: 10,
    weight: 10,
    budget: 100,
};

// A square of 20 nm at the corner, of shape 0.
const SQUARE: Piece = Piece {
    shape: 0,
    x1: 0,
    y1: 0,
    x2: 20,
    y2: 20,
    fixed: Piece::UNSET,
};

// A piece beside the square: its shape, where it begins, and the edge that is to be between the two.
const BESIDE: [(&str, u32, u32, u32, Edge); 8] = [
    ("gaps 79 and 0", 1, 99, 0, Edge::Conflict),
    ("gaps 80 and 0", 1, 100, 0, Edge::None),
    ("gaps 48 and 63", 1, 68, 83, Edge::Conflict),
    ("gaps 48 and 64", 1, 68, 84, Edge::None),
    ("shapes that overlap", 1, 10, 10, Edge::Conflict),
    ("contact 10", 0, 20, 10, Edge::Stitch),
    ("contact 9", 0, 20, 11, Edge::Tie),
    ("contact at a point", 0, 20, 20, Edge::None),
];

fn edges(rt: &impl Print) -> io::Result<()> {
    for (name, shape, x1, y1, wanted) in BESIDE {
        let beside = Piece::from([shape, x1, y1, 1000, 1000]);
        match edge_call::edge(SETTINGS, SQUARE, beside) {
            Ok(edge) if edge == wanted => println!(rt; "{name}: as stated")?,
            Ok(edge) => println!(rt; "{name}: DIFFERS\n{edge}")?,
            Err(refused) => println!(rt; "{name}: DIFFERS: refused={refused}")?,
        }
    }
    Ok(())
}

fn main(rt: HostRuntime) -> io::Result<()> {
    texts(&rt)?;
    edges(&rt)
}
