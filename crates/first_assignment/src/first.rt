// The first assignment of a component: place after place takes its fixed mask, or else the mask that adds least. The search starts from it.
ghost use Rattle.std.specs.Prelude.{not, cond, ◌≡◌, ℕ, ◌≤◌, ◌<◌, eqb, length, get_or};
ghost use Rattle.rules.specs.Basics.{up_to, any_of};
ghost use Rattle.rules.specs.Settings.{unset};
ghost use Rattle.rules.specs.Peeling.{is_fixed};
ghost use Rattle.rules.specs.Search.{cheapest};
ghost use Rattle.adjacency.specs.UnitGraph.{fixed_at};
ghost use Rattle.first_assignment.specs.First.{FixedLow, FirstOf};

use places::Local;
use rows::{Table, added_row};
use rules::stated_mask;

// The mask of which the cost is least, the lowest on a tie.
fn cheapest_mask(costs: &[u32]) -> usize
    requires { 1 ≤ length costs.now }
    ensures { result ≡ cheapest (λ m. get_or costs.now m 0) (length costs.now) }
{
    (0..costs.len()).min_by_key(|m| costs[*m]).unwrap_or(0)
}

// The fixed mask, or else the cheapest one.
fn first_mask(costs: &[u32], fixed: u8) -> usize
    requires { 1 ≤ length costs.now }
    ensures { result ≡ cond (not (eqb fixed unset)) fixed (cheapest (λ m. get_or costs.now m 0) (length costs.now)) }
{
    match stated_mask(fixed) {
        Some(mask) => usize::from(mask),
        None => cheapest_mask(costs),
    }
}

// Whether a place is fixed.
pub fn has_fixed(fixed: &[u8]) -> bool
    ensures { result ≡ any_of (is_fixed (fixed_at fixed.now)) (up_to (length fixed.now)) }
{
    fixed.iter().any(|mask| stated_mask(*mask).is_some())
}

// Fills the places, and answers what that costs.
pub fn first_assignment(local: &Local, table: &Table, masks: u64, partial: &mut [u8]) -> u64
    requires masks_bound { (1 ≤ masks) × (masks ≤ 8) }
    requires fixed_low { FixedLow (fixed_at local.now.fixed.now) (length local.now.fixed.now) masks }
    requires room { length partial.old ≡ length local.now.fixed.now }
    ensures { FirstOf masks table.now local.now.lists.now (fixed_at local.now.fixed.now) (length local.now.fixed.now) partial.new result }
{
    let mut cost = 0;
    for (k, own) in local.fixed.iter().enumerate() {
        let row = added_row(local.lists, table, &partial[..k]);
        let m = first_mask(&row[..masks as usize], *own);
        partial[k] = m as u8;
        cost += u64::from(row[m]);
    }
    cost
}
