// The component of a vertex, on adjacency words (RULES 5). Every vertex that comes in waits in the frontier until its row has
// been looked at, so each row is looked at once, and no list of vertices is walked for each of them.
#![tactic(auto)]

ghost use Rattle.std.specs.Prelude.{true, ◌≡◌, ◌<◌};
ghost use Rattle.bitset.specs.Bits.{member};
ghost use Rattle.components.specs.Component.{IsComponent};

use bitset::{BitSet, Matrix};

// The vertices of left that a path through left joins to v, by edges of either kind. Which they are is promised where v is the lowest of left, as the rules take
// components (RULES 5); of another v it is only said that the set has v and lies in left.
pub fn component(conflicts: &Matrix, stitches: &Matrix, left: &BitSet, v: usize) -> BitSet
    requires v_bound { v < 512 }
    requires v_value { member left.now v ≡ true }
    ensures { IsComponent conflicts.now stitches.now left.now v result }
{
    let mut inside = BitSet::empty();
    inside.put(v);
    let mut frontier = inside;
    while let Some(u) = frontier.take_lowest() {
        let new = conflicts.rows_without(stitches, u, left, &inside);
        inside = inside.union(&new);
        frontier = frontier.union(&new);
    }
    inside
}
