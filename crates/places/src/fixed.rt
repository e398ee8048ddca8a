// The fixed masks of places.
ghost use Rattle.std.specs.Prelude.{map, ◌≡◌, ℕ, ◌≤◌, ◌<◌, length, get_or};
ghost use Rattle.adjacency.specs.UnitGraph.{fixed_at};

use arrayvec::ArrayVec;

// The fixed masks of the places, from those of their vertices.
pub fn local_fixed(order: &[u16], fixed: &[u8; 512]) -> ArrayVec<u8, 512>
    requires few { length order.now ≤ 512 }
    requires by_index { (i : ℕ) → i < length order.now → get_or order.now i 0 < 512 }
    ensures { result.items ≡ map (fixed_at fixed.now) order.now }
{
    let mut local = ArrayVec::new();
    for vertex in order {
        local.push(fixed[usize::from(*vertex)]);
    }
    local
}
