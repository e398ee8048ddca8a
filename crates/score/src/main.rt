// The score of masks that were set by hand: `score LAYER-FILE MASK-FILE` prints the conflicts, the stitches and the cost of the
// masks on the layer, and how many pairs of pieces were tested for an edge, or the refusal (RULES 11 and 12). What keeps the files from being scored is said on standard error, and then
// nothing is printed.
#![tactic(auto)]

mod masks;
mod texts;

use bstr::BStr;
use files::{read_file, two_paths};
use rules::Scoring;
use std::io;
use std::rt::Files;
use texts::{Unscored, score_texts};

// ---- the answer

fn print_score(rt: &impl Print, scoring: Scoring) -> io::Result<()> {
    let Scoring { score, tested } = scoring;
    println!(rt; "conflicts={}", score.conflicts)?;
    println!(rt; "stitches={}", score.stitches)?;
    println!(rt; "cost={}", score.cost)?;
    println!(rt; "tested={tested}")
}

// A refusal is an answer too. A line out of form is not: it is said on standard error.
fn report(
    rt: &(impl Print + Eprint),
    mask_path: &[u8],
    scored: Result<Scoring, Unscored>,
) -> io::Result<()> {
    match scored {
        Ok(scoring) => print_score(rt, scoring),
        Err(Unscored::Question(refused)) => println!(rt; "refused={refused}"),
        Err(Unscored::Form(bad)) => eprintln!(rt; "{}: {bad}", BStr::new(mask_path)),
    }
}

// ---- the program

fn say_usage(rt: &impl Eprint) -> io::Result<()> {
    eprintln!(rt; "usage: score LAYER-FILE MASK-FILE")
}

// A layer text may have 32,768 bytes; one more is read, so that question 2 sees it. A mask file may have 65,536 bytes; one byte more is
// read, so that a longer one shows.
fn score_files(
    rt: &(impl Files + Print + Eprint),
    layer_path: &[u8],
    mask_path: &[u8],
) -> io::Result<()> {
    let mut layer_text = [0u8; 32_769];
    let mut mask_text = [0u8; 65_537];
    let Some(layer) = read_file(rt, layer_path, &mut layer_text) else {
        return Ok(());
    };
    let Some(masks) = read_file(rt, mask_path, &mut mask_text) else {
        return Ok(());
    };
    if masks.len() > 65_536 {
        return eprintln!(rt; "{}: more than 65536 bytes", BStr::new(mask_path));
    }
    report(rt, mask_path, score_texts(layer, masks))
}

fn main(rt: HostRuntime) -> io::Result<()> {
    let mut first = [0u8; 4_096];
    let mut second = [0u8; 4_096];
    match two_paths(&rt, &mut first, &mut second) {
        Some((layer_path, mask_path)) => score_files(&rt, layer_path, mask_path),
        None => say_usage(&rt),
    }
}
