// The words of ties alone, of pieces that need not be judged. A piece without area may be tied to itself, so that each piece is tested with itself too.
ghost use Rattle.std.specs.Prelude.{◌+◌, ◌<◌, ◌≤◌, length};
ghost use Rattle.adjacency.specs.Adjacency.{tie_of, RowTo, Ties};

use bitset::Matrix;
use edges::tie;
use rules::{Piece, Settings};

// Adds the ties between piece j and each piece up to it. That there are at most 512 pieces stands here, and wherever pieces are met before they are judged, as a
// bound of their number: a type for no more than that, beside `ValidLayer`, would be made anew for each question.
fn tie_row(settings: Settings, pieces: &[Piece], j: usize, ties: &mut Matrix)
    requires j_bound { j < length pieces.now }
    requires few { length pieces.now ≤ 512 }
    ensures { RowTo (tie_of settings pieces.now) (j + 1) j ties.old ties.new }
{
    let piece = pieces[j];
    for (i, other) in pieces[..=j].iter().enumerate() {
        if tie(settings, *other, piece) {
            ties.join(i, j);
        }
    }
}

// Fills the words of ties, whatever was in them.
pub fn tie_words(settings: Settings, pieces: &[Piece], ties: &mut Matrix)
    requires { length pieces.now ≤ 512 }
    ensures { Ties settings pieces.now (length pieces.now) ties.new }
{
    ties.clear();
    for j in 0..pieces.len() {
        tie_row(settings, pieces, j, ties);
    }
}
