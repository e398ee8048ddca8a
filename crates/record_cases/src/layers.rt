// The layers of the cases; each is an array of more records than a layer may have.
ghost use Rattle.std.specs.Prelude.{◌≡◌, ◌<◌, [], get_or};
ghost use Rattle.record_cases.specs.Layers.{four_records, far_square, records_of};

use rules::Piece;
use std::array;

// The three squares of RULES 9; those with a piece of no width, one out of range, or one that overlaps; a wire in halves with a piece
// beside each; squares far apart; two tied pieces with two neighbours. The row with its middle piece fixed to mask 0, the row with the thin
// piece fixed to mask 2, and the tied pieces fixed to masks 0 and 1.
#[derive(Clone, Copy)]
pub enum Layer {
    Row,
    Thin,
    Outside,
    Overlap,
    Wire,
    Far,
    Tied,
    FixedRow,
    FixedThin,
    FixedTied,
}

// Of each piece its shape and its corners: a table of rows is plainer than literals of six fields. Where a layer has three pieces, a fourth that no case
// lends stands after them.
const ROW: [[u32; 5]; 4] = [
    [0, 0, 0, 20, 20],
    [1, 40, 0, 60, 20],
    [2, 80, 0, 100, 20],
    [0, 0, 0, 20, 20],
];

const THIN: [[u32; 5]; 4] = [
    [0, 0, 0, 20, 20],
    [1, 40, 0, 40, 20],
    [2, 80, 0, 100, 20],
    [0, 0, 0, 20, 20],
];

const OUTSIDE: [[u32; 5]; 4] = [
    [0, 0, 0, 20, 20],
    [1, 40, 0, 60, 20],
    [2, 80, 0, 1_000_001, 20],
    [0, 0, 0, 20, 20],
];

const OVERLAP: [[u32; 5]; 4] = [
    [0, 0, 0, 20, 20],
    [1, 40, 0, 60, 20],
    [0, 10, 10, 30, 30],
    [0, 0, 0, 20, 20],
];

const WIRE: [[u32; 5]; 4] = [
    [0, 100, 0, 200, 20],
    [0, 200, 0, 300, 20],
    [1, 100, 90, 161, 110],
    [2, 239, 90, 300, 110],
];

const TIED: [[u32; 5]; 4] = [
    [0, 0, 0, 20, 20],
    [0, 20, 11, 40, 31],
    [1, 10, 60, 30, 80],
    [2, 60, 60, 80, 80],
];

// Four pieces, and then the first one again.
#[tactic(auto, unfolding(crate::specs::Layers::four_records))]
fn four_records(four: [[u32; 5]; 4]) -> [Piece; 513]
    ensures { result ≡ four_records (get_or four 0 []) (get_or four 1 []) (get_or four 2 []) (get_or four 3 []) }
{
    let [a, b, c, d] = four.map(Piece::from);
    let mut all = [a; 513];
    all[1] = b;
    all[2] = c;
    all[3] = d;
    all
}

// A square of a grid with 32 in a row.
fn far_square(i: u32) -> Piece
    requires { i < 513 }
    ensures { result ≡ far_square i }
{
    let x = 2000 * (i % 32);
    let y = 2000 * (i / 32);
    Piece::from([i, x, y, x + 20, y + 20])
}

// As many such squares as there are records: one more than a layer may have.
fn far() -> [Piece; 513]
    ensures { result ≡ records_of Layer.Far }
{
    array::from_fn(|i| far_square(i as u32))
}

// The records of a layer.
pub fn records_of(layer: Layer) -> [Piece; 513]
    ensures { result ≡ records_of layer }
{
    match layer {
        Layer::Row => four_records(ROW),
        Layer::Thin => four_records(THIN),
        Layer::Outside => four_records(OUTSIDE),
        Layer::Overlap => four_records(OVERLAP),
        Layer::Wire => four_records(WIRE),
        Layer::Far => far(),
        Layer::Tied => four_records(TIED),
        Layer::FixedRow => {
            let mut records = four_records(ROW);
            records[1].fixed = 0;
            records
        }
        Layer::FixedThin => {
            let mut records = four_records(THIN);
            records[1].fixed = 2;
            records
        }
        Layer::FixedTied => {
            let mut records = four_records(TIED);
            records[0].fixed = 0;
            records[1].fixed = 1;
            records
        }
    }
}
