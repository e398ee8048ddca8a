// Putting back: the removed vertices return in reverse order. One that went by (A) takes the lowest mask that no conflict
// neighbour there has, and one that went by (B) its stitch neighbour's mask.
ghost use Rattle.std.specs.Prelude.{◌<◌, ◌≤◌};
ghost use Rattle.bitset.specs.Bits.{LowestFree};
ghost use Rattle.reduction.specs.Returning.{InUse, ReturnsWith, Masked, HasPlace, Placeable, PutBack};

use crate::peeling::Removal;
use bitset::{BitSet, MaskSet, Matrix};

// What masks are handed back by: how many there are, and the conflicts. Who is there and the masks change with each vertex, so they are handed on beside it.
#[derive(Clone, Copy)]
struct Returning<'a> {
    masks: u32,
    conflicts: &'a Matrix,
    ghost few: { masks ≤ 8 },
}

impl Returning<'_> {
    // The masks of v's conflict neighbours that are there. Only neighbours are visited.
    fn masks_near(&self, v: usize, there: &BitSet, res: &[u8]) -> MaskSet
        requires v_bound { v < 512 }
        requires masked { Masked there.now res.now }
        ensures { InUse self.now.conflicts.now there.now res.now v result }
    {
        let mut used = MaskSet::empty();
        for u in self.conflicts.neighbours_in(v, there).members() {
            used.put(res[u]);
        }
        used
    }

    // The lowest of the masks that is not in use, if one is not.
    fn free_mask(&self, used: &MaskSet) -> Option<u8>
        ensures { LowestFree self.now.masks used.now result }
    {
        let m = used.lowest_free()?;
        (u32::from(m) < self.masks).then_some(m)
    }

    // The mask that a vertex returns with. The rules give mask 0 where none is free.
    fn mask_of(&self, removal: Removal, there: &BitSet, res: &[u8]) -> u8
        requires place { HasPlace res.now removal }
        requires masked { Masked there.now res.now }
        ensures { ReturnsWith self.now.masks self.now.conflicts.now there.now res.now removal result }
    {
        match removal.neighbour {
            Some(u) => res[u],
            None => {
                let used = self.masks_near(removal.vertex, there, res);
                self.free_mask(&used).unwrap_or(0)
            }
        }
    }
}

// Puts the removals back, the last removed first. Who is present is kept in a copy, so the caller's set stays.
pub fn put_back(
    masks: u32,
    conflicts: &Matrix,
    removals: &[Removal],
    there: &BitSet,
    res: &mut [u8],
)
    requires masks_bound { masks ≤ 8 }
    requires placeable { Placeable removals.now res.old }
    requires masked { Masked there.now res.old }
    ensures { PutBack masks conflicts.now removals.now there.now res.old res.new }
{
    let returning = Returning { masks, conflicts };
    let mut present = *there;
    for removal in removals.iter().rev() {
        res[removal.vertex] = returning.mask_of(*removal, &present, res);
        present.put(removal.vertex);
    }
}
