// From vertices to places and back.
ghost use Rattle.std.specs.Prelude.{◌≡◌, ℕ, ◌≤◌, ◌<◌, length, get_or};
ghost use Rattle.rules.specs.Decomposition.{put_masks};
ghost use Rattle.adjacency.specs.Members.{members_of};

use arrayvec::ArrayVec;
use bitset::BitSet;

// The members of a set in rising order. The list is an array with room for all, so it needs no heap.
pub fn list_members(members: &BitSet) -> ArrayVec<u16, 512>
    ensures order { result.items ≡ members_of members.now }
    ensures few { length result.items ≤ 512 }
    ensures vertices { (i : ℕ) → i < length result.items → get_or result.items i 0 < 512 }
{
    let mut order = ArrayVec::new();
    for v in members.members() {
        order.push(v as u16);
    }
    order
}

// Puts the masks of the places down at their vertices.
pub fn put_masks(order: &[u16], masks: &[u8], res: &mut [u8])
    requires { (i : ℕ) → i < length order.now → get_or order.now i 0 < length res.old }
    ensures { res.new ≡ put_masks order.now masks.now res.old }
{
    for (vertex, mask) in order.iter().zip(masks) {
        res[usize::from(*vertex)] = *mask;
    }
}
