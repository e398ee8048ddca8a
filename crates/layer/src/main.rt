// The main job: prints the result text of a layer, or a line with the number and the place of the refusal (RULES 12). Without arguments
// a layer text is read from standard input; `layer SETTINGS STREAM` reads a settings text and a stream from files (RULES 16). What keeps
// the files from being read is said on standard error, and then nothing is printed. The crate `loader` proves what is printed; here is
// the reading and the printing alone.
#![tactic(auto)]

ghost use Rattle.std.specs.Prelude.{◌≤◌, length, IfOk};

use files::{argument_count, read_all, read_file, two_paths};
use rules::Refused;
use std::io;
use std::rt::{Env, Files};

// ---- the answer

fn show(rt: &impl Print, answer: Result<usize, Refused>, buffer: &[u8]) -> io::Result<()>
    requires { IfOk answer (λ n. n ≤ length buffer.now) }
{
    match answer {
        Ok(length) => rt.write_all(&buffer[..length]),
        Err(refused) => println!(rt; "refused={refused}"),
    }
}

// ---- a layer text

// One byte more than a text may have is read, so that a text that is too long is seen by it; the rest of it is left unread.
fn show_input(rt: &(impl Input + Print)) -> io::Result<()> {
    let mut text = [0u8; 32_769];
    let mut result = [0u8; 4_096];
    let read = read_all(&mut rt.reader(), &mut text)?;
    let answer = loader::decompose_text(read, &mut result);
    show(rt, answer, &result)
}

// ---- a settings text and a stream

// One byte more of each file, for the same reason.
fn show_files(
    rt: &(impl Files + Print + Eprint),
    settings: &[u8],
    stream: &[u8],
) -> io::Result<()> {
    let mut settings_text = [0u8; 32_769];
    let mut stream_bytes = [0u8; 65_537];
    let mut result = [0u8; 4_096];
    let Some(settings) = read_file(rt, settings, &mut settings_text) else {
        return Ok(());
    };
    let Some(stream) = read_file(rt, stream, &mut stream_bytes) else {
        return Ok(());
    };
    let answer = loader::decompose_stream(settings, stream, &mut result);
    show(rt, answer, &result)
}

// ---- the program

fn say_usage(rt: &impl Eprint) -> io::Result<()> {
    eprintln!(rt; "usage: layer < LAYER-FILE, or layer SETTINGS-FILE STREAM-FILE")
}

fn show_arguments(rt: &(impl Env + Files + Print + Eprint)) -> io::Result<()> {
    let mut first = [0u8; 4_096];
    let mut second = [0u8; 4_096];
    match two_paths(rt, &mut first, &mut second) {
        Some((settings, stream)) => show_files(rt, settings, stream),
        None => say_usage(rt),
    }
}

// The first of the arguments is the program's name.
fn main(rt: HostRuntime) -> io::Result<()> {
    if argument_count(&rt) < 2 {
        show_input(&rt)
    } else {
        show_arguments(&rt)
    }
}
