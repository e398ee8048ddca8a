// What the programs read: their arguments, and the start of a file or of the standard input, as much as a buffer has room for. The
// programs `layer`, `score`, `cases`, `record_cases`, `stages` and `decomposer_main` stand on this crate.
#![tactic(auto)]

ghost use Rattle.std.specs.Prelude.{◌<◌, ◌≤◌, length, IfOk, IfSome};

use bstr::BStr;
use std::env::{Env, FillError};
use std::io::Read;
use std::rt::Files;
use std::{fs, io, str};

// ---- files

// Reads until the buffer is full, the input ends or a read fails, and answers the part of the buffer that was read: its start. The
// library's `read_to_end` fills a `Vec` that grows with the input, and its `read_exact` fails where the input ends before the buffer is full.
// Which bytes are read is the system's to say.
pub fn read_all<'a>(input: &mut impl Read, buffer: &'a mut [u8]) -> io::Result<&'a [u8]>
    ensures { IfOk result (λ read. length read.now ≤ length buffer.old) }
{
    let mut at = 0;
    while at < buffer.len() {
        let bytes = input.read(&mut buffer[at..])?;
        if bytes == 0 {
            break;
        }
        at += bytes;
    }
    Ok(&buffer[..at])
}

// The library opens a path only if it is UTF-8.
fn read_path<'a>(rt: &impl Files, path: &[u8], buffer: &'a mut [u8]) -> io::Result<&'a [u8]>
    ensures { IfOk result (λ read. length read.now ≤ length buffer.old) }
{
    let name = str::from_utf8(path).map_err(|_| io::Error::from(io::ErrorKind::InvalidFilename))?;
    read_all(&mut fs::open(rt, name)?, buffer)
}

// Reads the start of a file. Where that fails, standard error has the reason. Whether it fails, and which bytes are read, is the system's
// to say.
pub fn read_file<'a>(
    rt: &(impl Files + Eprint),
    path: &[u8],
    buffer: &'a mut [u8],
) -> Option<&'a [u8]>
    ensures { IfSome result (λ read. length read.now ≤ length buffer.old) }
{
    match read_path(rt, path, buffer) {
        Ok(read) => Some(read),
        Err(error) => {
            // There is nowhere else to say it.
            let _ = eprintln!(rt; "{}: {error}", BStr::new(path));
            None
        }
    }
}

// ---- arguments

// Arguments are read one at a time into a lent buffer, and are bytes: the library's `args` copies all of them, however long, and fails where
// one is not UTF-8.

// How many arguments the program was started with, its own name among them. Nothing is promised of it: which there are is the system's
// to say, and no contract can name them.
pub fn argument_count(rt: &impl Env) -> usize {
    (0..usize::MAX)
        .find(|i| matches!(rt.arg(*i, &mut []), Err(FillError::NotPresent)))
        .unwrap_or(usize::MAX)
}

// Argument i, at the start of the buffer, unless it is missing or longer than the buffer. Which bytes it has is the system's to say.
pub fn argument<'a>(rt: &impl Env, i: usize, buffer: &'a mut [u8]) -> Option<&'a [u8]>
    ensures { IfSome result (λ argument. length argument.now ≤ length buffer.old) }
{
    let bytes = rt.arg(i, buffer).ok()?;
    Some(&buffer[..bytes])
}

// Arguments 1 and 2, each at the start of its buffer, where they are all that there are and both are paths: not empty, and not longer than
// the buffer. Which bytes they have is the system's to say.
pub fn two_paths<'a>(
    rt: &impl Env,
    first: &'a mut [u8],
    second: &'a mut [u8],
) -> Option<(&'a [u8], &'a [u8])>
    ensures first { IfSome result (λ paths. (0 < length paths.0.now) × (length paths.0.now ≤ length first.old)) }
    ensures second { IfSome result (λ paths. (0 < length paths.1.now) × (length paths.1.now ≤ length second.old)) }
{
    let first = argument(rt, 1, first).filter(|path| !path.is_empty())?;
    let second = argument(rt, 2, second).filter(|path| !path.is_empty())?;
    (argument_count(rt) == 3).then_some((first, second))
}
