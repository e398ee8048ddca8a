// Peeling: the lowest vertex that may go is removed, until none may go. Degrees are ones of adjacency words, masked by the
// set of those still there. A vertex with a fixed mask stays.
ghost use Rattle.std.specs.Prelude.{◌<◌, ◌≡◌, length};
ghost use Rattle.rules.specs.Peeling.{may_go};
ghost use Rattle.adjacency.specs.Adjacency.{word_graph};
ghost use Rattle.adjacency.specs.Members.{members_of};
ghost use Rattle.adjacency.specs.UnitGraph.{fixed_at};
ghost use Rattle.reduction.specs.Removals.{LowestToGo, PeeledTo};

use adjacency::EdgeSets;
use arrayvec::ArrayVec;
use bitset::BitSet;
use rules::stated_mask;

// A removed vertex, and its stitch neighbour where it went by (B).
#[derive(Clone, Copy, Debug, Default, PartialEq, Eq)]
pub struct Removal {
    pub vertex: usize,
    pub neighbour: Option<usize>,
}

// What a vertex is judged by, beside the vertices there, which peeling changes. Behind the reference a proof knows the array's length by `room` alone.
#[derive(Clone, Copy)]
struct Peeling<'a> {
    masks: u32,
    edges: &'a EdgeSets,
    fixed: &'a [u8; 512],
    ghost room: { length fixed.now ≡ 512 },
}

impl Peeling<'_> {
    // Whether v may go: it has no fixed mask, and goes by (A), no stitch neighbour and fewer conflict neighbours than masks, or
    // by (B), no conflict neighbour and one stitch neighbour.
    fn may_go(&self, there: &BitSet, v: usize) -> bool
        requires { v < 512 }
        ensures { result ≡ may_go self.now.masks (word_graph self.now.edges.now.conflicts self.now.edges.now.stitches) (fixed_at self.now.fixed.now) (members_of there.now) v }
    {
        if stated_mask(self.fixed[v]).is_some() {
            return false;
        }
        let near = self.edges.conflicts.degree_in(v, there);
        match self.edges.stitches.degree_in(v, there) {
            0 => near < self.masks as usize,
            1 => near == 0,
            _ => false,
        }
    }

    // The lowest vertex that may go. The rules give this search its form: a loop over the numbers 0 to 511, which passes those
    // that are not there and hands out the one found.
    fn lowest_to_go(&self, there: &BitSet) -> Option<usize>
        ensures { LowestToGo self.now.masks (word_graph self.now.edges.now.conflicts self.now.edges.now.stitches) (fixed_at self.now.fixed.now) there.now result }
    {
        let mut i = 0;
        loop {
            if i == 512 {
                break None;
            }
            if there.has(i) && self.may_go(there, i) {
                break Some(i);
            }
            i += 1;
        }
    }
}

// Removes vertices until none may go, and lists them in their order.
pub fn peel(
    masks: u32,
    edges: &EdgeSets,
    fixed: &[u8; 512],
    there: &mut BitSet,
) -> ArrayVec<Removal, 512>
    ensures { PeeledTo masks (word_graph edges.now.conflicts edges.now.stitches) (fixed_at fixed.now) there.old there.new result.items }
{
    let peeling = Peeling {
        masks,
        edges,
        fixed,
    };
    let mut removals = ArrayVec::new();
    while let Some(vertex) = peeling.lowest_to_go(there) {
        let neighbour = edges.stitches.lowest_in(vertex, there);
        removals.push(Removal { vertex, neighbour });
        there.take_out(vertex);
    }
    removals
}
