// Does the first stages of a run, as often as asked, so that a clock outside this program can tell the stages apart (bench/stages). The standard
// input is a line `stages=LAST,REPEATS` and a layer text. LAST is the number of the last stage to do.
#![tactic(auto)]

ghost use Rattle.std.specs.Prelude.{◌≡◌, length};

use adjacency::{DrawnLayer, EdgeSets};
use bitset::Matrix;
use core_search::{Limits, Progress, UnitGraph};
use files::read_all;
use rules::{Piece, Refused, Settings, ValidLayer};
use std::io;

// The stages in their order, from number 0 on. The last two stand beside those after `Judgement`, and score masks that are all 0.
#[derive(Clone, Copy, PartialEq, Eq)]
enum Stage {
    Nothing,
    // the text is read
    Text,
    // and judged, which reading it did too
    Judgement,
    // edges of pieces, units and their fixed masks
    Edges,
    // edges of units
    UnitEdges,
    Peeling,
    // the search of the core
    Core,
    // putting back, and the score
    Score,
    // the result text
    Writing,
    Printing,
    // as `score` does, pair by pair
    PairScore,
    // from edges of pieces
    EdgeScore,
}

// Every number asks for a stage, so this is no `TryFrom`.
impl From<u32> for Stage {
    fn from(number: u32) -> Stage {
        match number {
            0 => Stage::Nothing,
            1 => Stage::Text,
            2 => Stage::Judgement,
            3 => Stage::Edges,
            4 => Stage::UnitEdges,
            5 => Stage::Peeling,
            6 => Stage::Core,
            7 => Stage::Score,
            8 => Stage::Writing,
            9 => Stage::Printing,
            11 => Stage::EdgeScore,
            // 10, and each number that no stage has
            _ => Stage::PairScore,
        }
    }
}

// ---- Each stage answers a number that it made, so that none can be left out.

// The neighbours of vertex 0 among the first 64, as the bits of a number.
fn first_word(edges: &Matrix) -> u64 {
    (0..64)
        .filter(|j| edges.has_edge(0, *j))
        .fold(0u64, |word, j| word | 1 << j)
}

// Stages 3 to 6 of a layer, called one by one as a run calls them, since the program may end after each of them.
#[tactic(auto, using(adjacency::proofs::DrawnLaws::valid_drawn, rules::proofs::Validity::layer_facts, units::proofs::TieUnits::new_front))]
fn first_stages(last: Stage, layer: &ValidLayer, masks: &mut [u8]) -> u64
    requires { length masks.old ≡ length layer.now.pieces.now }
{
    let mut edges = EdgeSets::empty();
    let mut units = [0u16; 512];
    let units = &mut units[..layer.pieces.len()];
    let drawn = DrawnLayer {
        settings: layer.settings,
        pieces: layer.pieces,
    };
    let mut core = units::layer_units(&drawn, &mut edges, units);
    let given = units::fixed_masks_of(layer.pieces);
    let mut fixed = [Piece::UNSET; 512];
    units::note_masks(units, given.as_slice(), &mut fixed);
    if last == Stage::Edges {
        return first_word(&edges.conflicts);
    }
    let mut merged = EdgeSets::empty();
    units::merge_edges(&edges, units, &mut merged);
    if last == Stage::UnitEdges {
        return first_word(&merged.conflicts);
    }
    let removals = reduction::peel(layer.settings.masks, &merged, &fixed, &mut core);
    if last == Stage::Peeling {
        return removals.len() as u64;
    }
    let limits = Limits::from(layer.settings);
    let mut progress = Progress::new(limits.budget);
    let graph = UnitGraph {
        edges: &edges,
        units,
    };
    core_search::search_core(&graph, &merged, &fixed, &core, limits, &mut progress, masks);
    progress.left
}

// Stages 7 to 9 of a layer.
fn last_stages(
    rt: &impl Print,
    last: Stage,
    layer: &ValidLayer,
    masks: &mut [u8],
) -> io::Result<u64>
    requires { length masks.old ≡ length layer.now.pieces.now }
{
    let run = decomposer::decompose(layer, masks);
    if last == Stage::Score {
        return Ok(u64::from(run.steps));
    }
    let mut buffer = [0u8; 4_096];
    let length = result_writer::write_result(&mut buffer, run, masks);
    if last == Stage::Printing {
        rt.write_all(&buffer[..length])?;
    }
    Ok(length as u64)
}

// The cost by edges of pieces. The pieces are judged first, as a call on records does.
#[tactic(auto, using(adjacency::proofs::DrawnLaws::valid_drawn, rules::proofs::Validity::layer_facts, units::proofs::TieUnits::new_front))]
fn edge_score(settings: Settings, pieces: &[Piece], masks: &[u8]) -> Result<u64, Refused>
    requires { length masks.now ≡ length pieces.now }
{
    let layer = fixed_masks::judge(settings, pieces)?;
    let mut edges = EdgeSets::empty();
    let mut units = [0u16; 512];
    let units = &mut units[..layer.pieces.len()];
    let drawn = DrawnLayer {
        settings: layer.settings,
        pieces: layer.pieces,
    };
    units::layer_units(&drawn, &mut edges, units);
    let score = counting::score_edges(settings.weight, &edges, masks);
    Ok(u64::from(score.cost))
}

// The stages after `Judgement`.
fn judged_stages(
    rt: &impl Print,
    last: Stage,
    layer: &ValidLayer,
    masks: &mut [u8],
) -> io::Result<Option<u64>>
    requires { length masks.old ≡ length layer.now.pieces.now }
{
    Ok(match last {
        Stage::Score | Stage::Writing | Stage::Printing => {
            Some(last_stages(rt, last, layer, masks)?)
        }
        Stage::PairScore => scoring::score(layer.settings, layer.pieces, masks)
            .ok()
            .map(|scoring| u64::from(scoring.score.cost)),
        Stage::EdgeScore => edge_score(layer.settings, layer.pieces, masks).ok(),
        _ => Some(first_stages(last, layer, masks)),
    })
}

// Every stage up to the last one. No number is made where nothing is to be done, or the layer is refused.
fn stages(rt: &impl Print, last: Stage, text: &[u8]) -> io::Result<Option<u64>> {
    if last == Stage::Nothing {
        return Ok(None);
    }
    let read = text::read_layer(text);
    if read.answer.is_err() {
        return Ok(None);
    }
    let pieces = read.lent();
    if last == Stage::Text {
        return Ok(Some(pieces.len() as u64));
    }
    let Ok(layer) = fixed_masks::judge(read.settings, pieces) else {
        return Ok(None);
    };
    if last == Stage::Judgement {
        return Ok(Some(1));
    }
    let mut masks = [0u8; 512];
    judged_stages(rt, last, &layer, &mut masks[..pieces.len()])
}

fn repeated(rt: &impl Print, last: Stage, repeats: u32, text: &[u8]) -> io::Result<u64> {
    let mut sum = 0u64;
    for _ in 0..repeats {
        sum = sum.wrapping_add(stages(rt, last, text)?.unwrap_or(0));
    }
    Ok(sum)
}

// A first line out of form asks for nothing.
fn main(rt: HostRuntime) -> io::Result<()> {
    let mut buffer = [0u8; 65_536];
    let input = read_all(&mut rt.reader(), &mut buffer)?;
    let sum = match lines::read_line::<2>(input, b"stages=") {
        Some(line) => {
            let [last, repeats] = line.values;
            repeated(&rt, Stage::from(last), repeats, line.rest)?
        }
        None => 0,
    };
    println!(rt; "sum={sum}")
}
