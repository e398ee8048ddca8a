// What tests of pairs come to.
ghost use Rattle.std.specs.Prelude.{◌≡◌, ◌+◌, ◌≤◌};
ghost use Rattle.pair_tests.specs.PairTests.{tally_with};

use counting::{on_one_mask, on_two_masks};
use rules::Edge;
use std::ops::AddAssign;

// How many pairs were tested, and how many conflicts and stitches they have.
#[derive(Clone, Copy, Debug, Default, PartialEq, Eq)]
pub struct Tally {
    pub tested: u32,
    pub conflicts: u32,
    pub stitches: u32,
}

impl Tally {
    // Counts a test that found this edge between ends with these masks. Most pairs have none, and the masks are not compared then. `counting::counts` tells whether an
    // edge counts; here its kind is looked at anyway, since it says which number rises.
    pub fn add(&mut self, edge: Edge, a: u8, b: u8)
        requires tested_bound { self.old.tested ≤ 511 }
        requires conflicts_bound { self.old.conflicts ≤ 511 }
        requires stitches_bound { self.old.stitches ≤ 511 }
        ensures { self.new ≡ tally_with self.old edge a b }
    {
        self.tested += 1;
        match edge {
            Edge::Conflict => self.conflicts += u32::from(on_one_mask(a, b)),
            Edge::Stitch => self.stitches += u32::from(on_two_masks(a, b)),
            Edge::Tie | Edge::None => {}
        }
    }
}

// What both come to.
impl AddAssign for Tally {
    ghost can_add_assign = { λ t more. (t.tested + more.tested ≤ 4_294_967_295) × (t.conflicts + more.conflicts ≤ 4_294_967_295) × (t.stitches + more.stitches ≤ 4_294_967_295) };

    ghost add_assign_gives = { λ t more all. all ≡ record { tested = t.tested + more.tested; conflicts = t.conflicts + more.conflicts; stitches = t.stitches + more.stitches } };

    fn add_assign(&mut self, more: Tally) {
        self.tested += more.tested;
        self.conflicts += more.conflicts;
        self.stitches += more.stitches;
    }
}
