// The edges between one piece and many. Most pairs are too far apart for an edge, and one comparison tells them: it adds to and subtracts from numbers that are
// made once for the piece.
ghost use Rattle.std.specs.Prelude.{true, ◌≡◌, ◌+◌, ◌-◌, ◌≤◌};
ghost use Rattle.rules.specs.Settings.{settings_in_range, piece_in_range};

use edges::judged_edge;
use rules::{Edge, Piece, Settings};

// A piece, and where its reach ends, the spacing away from it: in X the left end, negated, and the right end, in Y the lower end, negated, and the upper end. To each
// 1,000,000 is added, so that none is negative.
#[derive(Clone, Copy)]
pub struct Reach {
    pub settings: Settings,
    pub piece: Piece,
    left: u32,
    right: u32,
    below: u32,
    above: u32,
    ghost spacing_bound: { settings.spacing ≤ 100000 },
    ghost piece_value: { piece_in_range piece ≡ true },
    ghost left_value: { left ≡ 1000000 + settings.spacing - piece.x1 },
    ghost right_value: { right ≡ 1000000 + settings.spacing + piece.x2 },
    ghost below_value: { below ≡ 1000000 + settings.spacing - piece.y1 },
    ghost above_value: { above ≡ 1000000 + settings.spacing + piece.y2 },
}

impl Reach {
    ghost use Rattle.rules.specs.Edges.{edge_of};
    ghost use Rattle.adjacency.specs.Reaches.{in_reach};

    // The reach of a piece, which need not be one of a judged layer.
    #[tactic(auto, using(rules::proofs::Ranges::piece_facts))]
    pub fn of(settings: Settings, piece: Piece) -> Reach
        requires spacing_bound { settings.spacing ≤ 100000 }
        requires piece_value { piece_in_range piece ≡ true }
        ensures settings { result.settings ≡ settings }
        ensures piece { result.piece ≡ piece }
    {
        let base = 1_000_000 + settings.spacing;
        Reach {
            settings,
            piece,
            left: base - piece.x1,
            right: base + piece.x2,
            below: base - piece.y1,
            above: base + piece.y2,
        }
    }

    // Whether another piece comes into it on all sides.
    #[tactic(auto, using(rules::proofs::Ranges::piece_facts))]
    fn has(&self, other: Piece) -> bool
        requires { piece_in_range other ≡ true }
        ensures { result ≡ in_reach self.now other }
    {
        let x = (self.left + other.x2).min(self.right - other.x1);
        let y = (self.below + other.y2).min(self.above - other.y1);
        1_000_000 < x.min(y)
    }

    // The edge between another piece that is judged and this one.
    #[tactic(auto, using(crate::proofs::ReachLaws::out_of_reach))]
    pub fn edge_from(&self, other: Piece) -> Edge
        requires settings_value { settings_in_range self.now.settings ≡ true }
        requires other_value { piece_in_range other ≡ true }
        ensures { result ≡ edge_of self.now.settings other self.now.piece }
    {
        if self.has(other) {
            judged_edge(self.settings, other, self.piece)
        } else {
            Edge::None
        }
    }
}
