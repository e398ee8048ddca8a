// What two pieces are to each other: whether they overlap, how far they are apart, how far they touch, and the edge between them (RULES 2 and 17). The
// settings and the two pieces are handed on as three values: a struct of them would be made for each pair, and its fields named in each body. So their ranges stand
// in contracts, of those functions that multiply.
ghost use Rattle.std.specs.Prelude.{true, ◌≡◌, ◌*◌, ◌≤◌};
ghost use Rattle.rules.specs.Settings.{settings_in_range, piece_in_range};
ghost use Rattle.rules.specs.Edges.{overlapping, contact, squared_gap, conflict_edge, stitch_edge, tied, edge_of};

use crate::distance::Interval;
use rules::{Edge, Piece, Settings};

// Whether two pieces of one shape overlap.
#[tactic(auto, unfolding(rules::specs::Edges::overlapping, rules::specs::Edges::overlap_x, rules::specs::Edges::overlap_y))]
pub fn pieces_overlap(a: Piece, b: Piece) -> bool
    ensures { result ≡ overlapping a b }
{
    a.shape == b.shape
        && 0 < Interval::in_x(a).overlap(Interval::in_x(b))
        && 0 < Interval::in_y(a).overlap(Interval::in_y(b))
}

// The square of a length. That of the greatest coordinate does not fit 32 bits.
#[tactic(auto, using(crate::proofs::Squares::square))]
fn square(x: u32) -> u64
    requires { x ≤ 1000000 }
    ensures { result ≡ x * x }
{
    let wide = u64::from(x);
    wide * wide
}

// The squared distance of two pieces.
#[tactic(auto, using(rules::proofs::Ranges::piece_facts, crate::proofs::Squares::square), unfolding(rules::specs::Edges::squared_gap, rules::specs::Edges::gap_x, rules::specs::Edges::gap_y))]
fn squared_gap(a: Piece, b: Piece) -> u64
    requires a_value { piece_in_range a ≡ true }
    requires b_value { piece_in_range b ≡ true }
    ensures { result ≡ squared_gap a b }
{
    let gx = Interval::in_x(a).gap(Interval::in_x(b));
    let gy = Interval::in_y(a).gap(Interval::in_y(b));
    square(gx) + square(gy)
}

// Whether a conflict edge joins two pieces.
#[tactic(auto, using(rules::proofs::Ranges::settings_facts), unfolding(rules::specs::Edges::conflict_edge))]
fn conflict(settings: Settings, a: Piece, b: Piece) -> bool
    requires settings_value { settings_in_range settings ≡ true }
    requires a_value { piece_in_range a ≡ true }
    requires b_value { piece_in_range b ≡ true }
    ensures { result ≡ conflict_edge settings a b }
{
    a.shape != b.shape && squared_gap(a, b) < square(settings.spacing)
}

// The length along which two pieces touch.
#[tactic(auto, unfolding(rules::specs::Edges::contact, rules::specs::Edges::overlap_x, rules::specs::Edges::overlap_y, rules::specs::Edges::gap_x, rules::specs::Edges::gap_y))]
fn contact_length(a: Piece, b: Piece) -> u32
    ensures { result ≡ contact a b }
{
    let (ax, bx) = (Interval::in_x(a), Interval::in_x(b));
    let (ay, by) = (Interval::in_y(a), Interval::in_y(b));
    if ax.meets(bx) {
        ay.overlap(by)
    } else if ay.meets(by) {
        ax.overlap(bx)
    } else {
        0
    }
}

// Whether a stitch edge joins two pieces.
#[tactic(auto, unfolding(rules::specs::Edges::stitch_edge))]
fn stitch(settings: Settings, a: Piece, b: Piece) -> bool
    ensures { result ≡ stitch_edge settings a b }
{
    a.shape == b.shape && settings.margin <= contact_length(a, b)
}

// Whether two pieces are tied.
#[tactic(auto, unfolding(rules::specs::Edges::tied))]
pub fn tie(settings: Settings, a: Piece, b: Piece) -> bool
    ensures { result ≡ tied settings a b }
{
    if a.shape != b.shape {
        return false;
    }
    let length = contact_length(a, b);
    0 < length && length < settings.margin
}

// The edge between two pieces that are judged.
#[tactic(auto, unfolding(rules::specs::Edges::edge_of))]
pub fn judged_edge(settings: Settings, a: Piece, b: Piece) -> Edge
    requires settings_value { settings_in_range settings ≡ true }
    requires a_value { piece_in_range a ≡ true }
    requires b_value { piece_in_range b ≡ true }
    ensures { result ≡ edge_of settings a b }
{
    if conflict(settings, a, b) {
        Edge::Conflict
    } else if stitch(settings, a, b) {
        Edge::Stitch
    } else if tie(settings, a, b) {
        Edge::Tie
    } else {
        Edge::None
    }
}
