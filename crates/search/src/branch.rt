// The search over the places of a component (document 01: the walk), by two functions that call each other, one for a place and one for its
// masks. What a search does not change stands in a problem, and what it changes in a walk; the numbers of a step are handed on by value.
ghost use Rattle.std.specs.Prelude.{false, ◌≡◌, ◌≤◌, ◌<◌, length};
ghost use Rattle.search.specs.Branch.{Ready, RowOf, Placed, Masked, tried_in, has_ended};

use crate::incumbent::Walk;
use crate::limits::Limits;
use places::Local;
use rows::{Table, added_row};
use rules::stated_mask;

// The local problem, the table of the weight, what the run sets for each search, and the cost at which this one ends, if there is one (RULES 19).
#[derive(Drop)]
pub struct Problem<'a> {
    pub local: Local<'a>,
    pub table: Table,
    pub limits: Limits,
    pub end: Option<u64>,
}

impl Problem<'_> {
    // Searches the places from p on, where those before it have the masks of the walk, which cost `cost`, and `left` steps are left. The search has
    // not ended. The masks below `used` and the next one are tried at a place that is not fixed: `used` is how many different masks there are before
    // p, or, where a place is fixed and masks cannot be renamed, the number of masks. No test tells the two apart, since the first is that number too
    // once all masks are in use. Answers how many steps are left then, or 0 if it has ended.
    #[cycle(search_masks_search_place)]
    pub fn search_place(&self, walk: &mut Walk, p: usize, cost: u64, used: usize, left: u64) -> u64
        requires ready { Ready self.now walk.old p cost used left }
        requires goes_on { has_ended walk.old ≡ false }
        ensures { Placed self.now walk.old walk.new p cost left result }
    {
        let Some(own) = self.local.fixed.get(p) else {
            return walk.hold(self.end, cost, left);
        };
        let row = added_row(self.local.lists, &self.table, &walk.partial[..p]);
        let masks = self.limits.masks as usize;
        let (first, last) = match stated_mask(*own) {
            Some(mask) => (usize::from(mask), usize::from(mask) + 1),
            None => (0, masks.min(used + 1)),
        };
        self.search_masks(walk, p, cost, used, left, &row, first, last)
    }

    // Tries the masks from `first` up to `last` at place p, where mask m adds what the row has at m. A search that has ended has no steps left, so the one
    // test for these ends the loop in both cases. The masks are two numbers and no `Range`: handed on as one, a step took a twentieth longer.
    #[cycle(search_masks_search_place)]
    fn search_masks(
        &self,
        walk: &mut Walk,
        p: usize,
        cost: u64,
        used: usize,
        left: u64,
        row: &[u32; 8],
        first: usize,
        last: usize,
    ) -> u64
        requires ready { Ready self.now walk.old p cost used left }
        requires row_of { RowOf self.now walk.old p row.now }
        requires place { p < length self.now.local.fixed.now }
        requires order { first ≤ last }
        requires tried { last ≤ tried_in self.now used }
        ensures { Masked self.now walk.old walk.new p cost left first last result }
    {
        let mut rest = left;
        for mask in first..last {
            if rest == 0 {
                walk.note_due();
                return 0;
            }
            rest -= 1;
            let total = cost + u64::from(row[mask]);
            if total < walk.cost {
                walk.partial[p] = mask as u8;
                rest = self.search_place(walk, p + 1, total, used.max(mask + 1), rest);
            }
        }
        rest
    }
}
