// The pieces of each unit, as sets: they are found in one pass over the pieces, so that no unit's pieces are looked for.
ghost use Rattle.std.specs.Prelude.{false, [], ◌≡◌, ◌&&◌, ℕ, ◌≤◌, ◌<◌, eqb, ltb, length, get_or};
ghost use Rattle.bitset.specs.Bits.{member};
ghost use Rattle.adjacency.specs.UnitGraph.{unit_at};

use bitset::BitSet;

// The unit of each piece, and the pieces of each unit. They are the same for each component that is laid out, and the sets are 32 KiB: so they are
// made once, and lent.
#[derive(Clone, Copy)]
pub struct UnitPieces<'a> {
    pub units: &'a [u16],
    pub sets: &'a [BitSet; 512],
    pub ghost few: { length units.now ≤ 512 },
    pub ghost all: { length sets.now ≡ 512 },
    pub ghost sorted: { (u q : ℕ) → u < 512 → member (get_or sets.now u []) q ≡ (ltb q (length units.now) && eqb (unit_at units.now q) u) },
}

// Puts the pieces into the sets of their units, which are lent empty: an array of sets that is handed back would be copied.
pub fn pieces_of_units(units: &[u16], pieces: &mut [BitSet; 512])
    requires few { length units.now ≤ 512 }
    requires by_index { (i : ℕ) → i < length units.now → unit_at units.now i < 512 }
    requires empty { (u q : ℕ) → u < 512 → member (get_or pieces.old u []) q ≡ false }
    ensures all { length pieces.new ≡ 512 }
    ensures sorted { (u q : ℕ) → u < 512 → member (get_or pieces.new u []) q ≡ (ltb q (length units.now) && eqb (unit_at units.now q) u) }
{
    for (q, unit) in units.iter().enumerate() {
        pieces[usize::from(*unit)].put(q);
    }
}
