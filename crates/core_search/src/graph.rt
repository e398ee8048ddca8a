// The graph of units that is searched.
ghost use Rattle.std.specs.Prelude.{ℕ, ◌≤◌, ◌<◌, length};
ghost use Rattle.adjacency.specs.UnitGraph.{unit_at};
ghost use Rattle.places.specs.LaidOut.{Exclusive};

use adjacency::EdgeSets;

// The edges of pieces, and the unit of each piece. The edges of units and the fixed masks of units are no part of it: both are made from it or beside it, and
// peeling and putting back go by them alone.
#[derive(Clone, Copy)]
pub struct UnitGraph<'a> {
    pub edges: &'a EdgeSets,
    pub units: &'a [u16],
    pub ghost exclusive: { Exclusive edges.now.conflicts edges.now.stitches },
    pub ghost few: { length units.now ≤ 512 },
    pub ghost small: { (i : ℕ) → i < length units.now → unit_at units.now i < 512 },
}
