// Runs the calls on lent records, and reports of each case whether it came out as stated in RULES 11 to 13, 17 and 18: worked cases, and refusals,
// after which lent memory must be as it was.
#![tactic(auto)]

mod calls;
mod layers;
mod outcomes;

use crate::calls::Case;
use crate::layers::Layer;
use crate::outcomes::{Done, best, refused, scored};
use files::read_all;
use rules::{Place, Refusal};
use std::io;

// ---- worked cases

fn results(rt: &impl Print) -> io::Result<()> {
    let row = Case::new("decompose the row", Layer::Row, 3);
    row.decompose(rt, &[0, 1, 0], best(1, 0, 10, 5))?;
    let far = Case::new("decompose 512 records", Layer::Far, 512);
    far.decompose(rt, &[0; 512], best(0, 0, 0, 0))?;
    let tied = Case::new("decompose tied pieces", Layer::Tied, 4);
    tied.decompose(rt, &[0, 0, 1, 1], best(1, 0, 10, 5))
}

// Fixed masks are kept by a run; masks that break them are scored all the same.
fn fixed_results(rt: &impl Print) -> io::Result<()> {
    let row = Case::new("decompose the row, piece 1 fixed to 0", Layer::FixedRow, 3);
    row.decompose(rt, &[0, 0, 1], best(1, 0, 10, 6))?;
    let row = row.named("score the row, piece 1 fixed to 0, on 0, 1, 0");
    row.score(rt, &[0, 1, 0], scored(1, 0, 10, 3))
}

fn scores(rt: &impl Print) -> io::Result<()> {
    let row = Case::new("score the row on 0, 1, 0", Layer::Row, 3);
    row.score(rt, &[0, 1, 0], scored(1, 0, 10, 3))?;
    let row = row.named("score the row on 1, 1, 1");
    row.score(rt, &[1, 1, 1], scored(3, 0, 30, 3))?;
    let wire = Case::new("score the wire on 0, 1, 1, 0", Layer::Wire, 4);
    wire.score(rt, &[0, 1, 1, 0], scored(0, 1, 1, 6))
}

fn half_done_scores(rt: &impl Print) -> io::Result<()> {
    let row = Case::new("score the row, piece 1 not set", Layer::Row, 3);
    row.score(rt, &[0, 255, 0], scored(1, 0, 10, 3))?;
    let tied = Case::new("score tied pieces, the lowest not set", Layer::Tied, 4);
    tied.score(rt, &[255, 1, 1, 0], scored(1, 0, 10, 6))?;
    let wire = Case::new("score the wire, nothing set", Layer::Wire, 4);
    wire.score(rt, &[255; 4], scored(0, 0, 0, 6))
}

// The text is the one on standard input, and the zeros after it stay.
fn text(rt: &(impl Input + Print)) -> io::Result<()> {
    let mut after = [0u8; 65_536];
    let size = read_all(&mut rt.reader(), &mut after)?.len();
    let row = Case::new("write the row, piece 1 fixed to 0", Layer::FixedRow, 3);
    row.write(rt, &after, Ok(Done::Written(size)))
}

// ---- refusals

fn bad_layers(rt: &impl Print) -> io::Result<()> {
    let range = refused(Refusal::Range, Place::Nothing);
    let far = Case::new("decompose 513 records", Layer::Far, 513);
    far.decompose(rt, &[9; 513], range)?;
    let thin = Case::new("piece 1 of no width", Layer::Thin, 3);
    thin.decompose(rt, &[9; 3], refused(Refusal::Area, Place::Piece(1)))?;
    let outside = Case::new("piece 2 out of range", Layer::Outside, 3);
    outside.decompose(rt, &[9; 3], refused(Refusal::Range, Place::Piece(2)))?;
    let overlap = Case::new("piece 2 overlaps piece 0", Layer::Overlap, 3);
    overlap.decompose(rt, &[9; 3], refused(Refusal::Overlap, Place::Piece(2)))?;
    let row = Case::new("decompose on 9 masks", Layer::Row, 3);
    row.on(9).decompose(rt, &[9; 3], range)?;
    let count = refused(Refusal::MaskCount, Place::Nothing);
    row.named("room for 2 masks").decompose(rt, &[9; 2], count)?;
    row.named("room for 4 masks").decompose(rt, &[9; 4], count)
}

// The thin piece has neither a mask of two nor a width: the mask is asked first.
fn bad_fixed(rt: &impl Print) -> io::Result<()> {
    let thin = Case::new("thin piece 1 fixed to 2 of 2", Layer::FixedThin, 3);
    thin.decompose(rt, &[9; 3], refused(Refusal::FixedRange, Place::Piece(1)))?;
    let thin = thin.named("thin piece 1 fixed to 2 of 3").on(3);
    thin.decompose(rt, &[9; 3], refused(Refusal::Area, Place::Piece(1)))?;
    let split = refused(Refusal::FixedSplit, Place::Piece(1));
    let tied = Case::new("tied pieces fixed to 0 and 1", Layer::FixedTied, 4);
    tied.decompose(rt, &[9; 4], split)?;
    tied.named("score 2 masks, tied pieces fixed to 0 and 1")
        .score(rt, &[0; 2], split)?;
    tied.named("write tied pieces fixed to 0 and 1")
        .write(rt, &[0; 32_768], split)
}

fn bad_lists(rt: &impl Print) -> io::Result<()> {
    let far = Case::new("score 513 records", Layer::Far, 513);
    far.score(rt, &[0; 513], refused(Refusal::Range, Place::Nothing))?;
    let count = refused(Refusal::MaskCount, Place::Nothing);
    let row = Case::new("score 2 masks", Layer::Row, 3);
    row.score(rt, &[0, 1], count)?;
    row.named("score 4 masks").score(rt, &[0, 1, 0, 0], count)
}

fn bad_masks(rt: &impl Print) -> io::Result<()> {
    let range = refused(Refusal::MaskRange, Place::Piece(1));
    let row = Case::new("piece 1 on mask 2 of 2", Layer::Row, 3);
    row.score(rt, &[0, 2, 2], range)?;
    row.named("piece 1 on mask 254 of 2")
        .score(rt, &[0, 254, 0], range)?;
    let tied = Case::new("tied pieces on 0 and 1", Layer::Tied, 4);
    tied.score(rt, &[0, 1, 1, 1], refused(Refusal::Split, Place::Piece(1)))?;
    let tied = tied.named("tied pieces on 0 and 1, mask 2 of 2");
    tied.score(
        rt,
        &[0, 1, 1, 2],
        refused(Refusal::MaskRange, Place::Piece(3)),
    )
}

fn bad_texts(rt: &impl Print) -> io::Result<()> {
    let far = Case::new("write 513 records", Layer::Far, 513);
    far.write(rt, &[0; 32_768], refused(Refusal::Range, Place::Nothing))?;
    let row = Case::new("room for 32767 bytes", Layer::Row, 3);
    row.write(rt, &[0; 32_767], refused(Refusal::Buffer, Place::Nothing))
}

fn main(rt: HostRuntime) -> io::Result<()> {
    results(&rt)?;
    fixed_results(&rt)?;
    scores(&rt)?;
    half_done_scores(&rt)?;
    text(&rt)?;
    bad_layers(&rt)?;
    bad_fixed(&rt)?;
    bad_lists(&rt)?;
    bad_masks(&rt)?;
    bad_texts(&rt)
}
