// The layers that edges are tested of.
ghost use Rattle.adjacency.specs.Drawn.{Drawn};

use rules::{Piece, Settings};

// Settings and lent pieces that are in their ranges, each piece with an area. A judged layer is one. What masks are fixed does not matter to edges, nor does whether
// pieces overlap.
#[derive(Clone, Copy)]
pub struct DrawnLayer<'a> {
    pub settings: Settings,
    pub pieces: &'a [Piece],
    ghost drawn: { Drawn settings pieces.now },
}
