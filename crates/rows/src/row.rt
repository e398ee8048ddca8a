// What each mask adds at a place, against its earlier neighbours: one pass over them fills a row, so that a mask that is tried costs
// one comparison.
ghost use Rattle.std.specs.Prelude.{◌≡◌, ℕ, ◌+◌, ◌*◌, ◌^◌, ◌≤◌, ◌<◌, length, get_or};
ghost use Rattle.places.specs.Local.{Earlier, on_mask, local_added};

use crate::table::Table;
use places::Lists;

// Adds to each of eight costs, by index: of what `iter_mut` hands out a proof knows no element.
fn add_each(sums: &mut [u32; 8], more: &[u32; 8])
    requires { (m : ℕ) → m < 8 → get_or sums.old m 0 + get_or more.now m 0 < 2 ^ 32 }
    ensures { (m : ℕ) → m < 8 → get_or sums.new m 0 ≡ get_or sums.old m 0 + get_or more.now m 0 }
{
    for m in 0..8 {
        sums[m] += more[m];
    }
}

// Adds the weight for each conflict neighbour, to the cost of its mask.
fn add_conflicts(sums: &mut [u32; 8], table: &Table, neighbours: &[u16], before: &[u8])
    requires few { length neighbours.now ≤ 131584 }
    requires earlier { Earlier (length before.now) neighbours.now }
    requires low { (i : ℕ) → i < length before.now → get_or before.now i 0 < 8 }
    requires small { (m : ℕ) → m < 8 → get_or sums.old m 0 ≤ 131584 }
    ensures adds { (m : ℕ) → m < 8 → get_or sums.new m 0 ≡ get_or sums.old m 0 + table.now * on_mask before.now m neighbours.now }
    ensures few_more { (m : ℕ) → m < 8 → get_or sums.new m 0 ≤ get_or sums.old m 0 + 1000 * length neighbours.now }
{
    let weights = &table.weights;
    for neighbour in neighbours {
        add_each(sums, &weights[before[*neighbour as usize] as usize]);
    }
}

// Takes one off for each stitch neighbour, from the cost of its mask.
fn drop_stitches(sums: &mut [u32; 8], neighbours: &[u16], before: &[u8])
    requires earlier { Earlier (length before.now) neighbours.now }
    requires low { (i : ℕ) → i < length before.now → get_or before.now i 0 < 8 }
    requires enough { (m : ℕ) → m < 8 → length neighbours.now ≤ get_or sums.old m 0 }
    ensures { (m : ℕ) → m < 8 → get_or sums.new m 0 + on_mask before.now m neighbours.now ≡ get_or sums.old m 0 }
{
    for neighbour in neighbours {
        sums[before[*neighbour as usize] as usize] -= 1;
    }
}

// What each of eight masks adds at a place, where the places before it have the masks of `before`. The search asks this once a step, and a call
// that is not inlined there makes a step a sixth slower. That masks are below 8 is asked of a plain list, since the walk writes its masks one at a time.
#[inline]
pub fn added_row(lists: &Lists, table: &Table, before: &[u8]) -> [u32; 8]
    requires place { length before.now < length lists.now }
    requires low { (i : ℕ) → i < length before.now → get_or before.now i 0 < 8 }
    ensures small { (m : ℕ) → m < 8 → get_or result m 0 ≤ 131_715_584 }
    ensures adds { (m : ℕ) → m < 8 → get_or result m 0 ≡ local_added table.now lists.now before.now m }
{
    let k = before.len();
    let stitches = lists.stitches_of(k);
    let mut row = [stitches.len() as u32; 8];
    add_conflicts(&mut row, table, lists.conflicts_of(k), before);
    drop_stitches(&mut row, stitches, before);
    row
}
