// The lists of earlier neighbours. The places are places of units, and a neighbour is entered once for each edge between pieces of the two units.
// No two pieces have edges of both kinds, so there is an entry at most for each of the 130,816 pairs of pieces. The room is larger, since no proof
// needs it to be exact: the law of counting (`room_left` in proofs/Counting) bounds the entries by half of 512 * 512, and 131,584 is 512 more.
ghost use Rattle.std.specs.Prelude.{[], ◌≡◌, ℕ, ◌+◌, ◌*◌, ◌≤◌, ◌<◌, length, get_or};
ghost use Rattle.places.specs.Local.{conflicts_at, stitches_at, Earlier};
ghost use Rattle.places.specs.Parts.{part_at, Parts};
ghost use Rattle.places.specs.LaidOut.{Exclusive, LaidOut};

use crate::pieces::UnitPieces;
use crate::seats::Seats;
use adjacency::EdgeSets;
use arrayvec::ArrayVec;
use std::marker::Model;

// The earlier neighbours of each place. The entries are in parts: those of place k in conflict are part 2 k, and its stitch neighbours part 2 k + 1.
// No heap is used, and a list for each part would need room for the most entries 1,024 times: so all lie in one array, and `starts` has where each
// part begins. It is large, so it is made once, and lent.
#[derive(Drop)]
pub struct Lists {
    starts: ArrayVec<u32, 1025>,
    entries: ArrayVec<u16, 131584>,
}

impl Model for Lists {
    ghost use Rattle.std.specs.Prelude.{List};
    ghost use Rattle.places.specs.Local.{Neighbours};

    ghost Value = { List Neighbours };

    ghost use Rattle.places.specs.Parts.{places_of, Parts};

    ghost view = { λ l. places_of l.starts.items l.entries.items };

    ghost invariant = { λ l. Parts l.starts.items l.entries.items };
}

impl Lists {
    // No place.
    pub fn empty() -> Lists
        ensures { result ≡ [] }
    {
        let mut starts = ArrayVec::new();
        starts.push(0);
        Lists {
            starts,
            entries: ArrayVec::new(),
        }
    }

    // The conflict neighbours of place k.
    pub fn conflicts_of(&self, k: usize) -> &[u16]
        requires { k < length self.now }
        ensures value { result.now ≡ conflicts_at self.now k }
        ensures earlier { Earlier k result.now }
        ensures few { length result.now ≤ 131_584 }
    {
        part(self.starts.as_slice(), self.entries.as_slice(), 2 * k)
    }

    // Its stitch neighbours.
    pub fn stitches_of(&self, k: usize) -> &[u16]
        requires { k < length self.now }
        ensures value { result.now ≡ stitches_at self.now k }
        ensures earlier { Earlier k result.now }
        ensures few { length result.now ≤ 131_584 }
    {
        part(self.starts.as_slice(), self.entries.as_slice(), 2 * k + 1)
    }

    // Lays out the places, whose units are those of `order`. A unit's pieces are those that `of_units` gives it. In which order the entries of a list
    // stand is left open, as a cost only counts them. Edges and units come as two, since the graph of units (`core_search::UnitGraph`) stands above
    // this crate. Inlined, the seats would stand on the stack while the search goes from place to place.
    #[inline(never)]
    pub fn lay_out(&mut self, edges: &EdgeSets, of_units: &UnitPieces, order: &[u16])
        requires size_bound { length order.now ≤ 512 }
        requires by_index { (i : ℕ) → i < length order.now → get_or order.now i 0 < 512 }
        requires by_index_2 { (i j : ℕ) → i < j → j < length order.now → get_or order.now i 0 < get_or order.now j 0 }
        requires exclusive { Exclusive edges.now.conflicts edges.now.stitches }
        ensures { LaidOut edges.now.conflicts edges.now.stitches of_units.now.units.now order.now self.new }
    {
        let mut seats = Seats::none();
        self.entries.clear();
        self.starts.clear();
        self.starts.push(0);
        for (k, unit) in order.iter().enumerate() {
            let pieces = of_units.sets[usize::from(*unit)];
            seats.list_place(&edges.conflicts, &pieces, &mut self.entries);
            self.starts.push(self.entries.len() as u32);
            seats.list_place(&edges.stitches, &pieces, &mut self.entries);
            self.starts.push(self.entries.len() as u32);
            seats.seat(&pieces, k);
        }
    }
}

// Part i of the entries.
fn part<'a>(starts: &[u32], entries: &'a [u16], i: usize) -> &'a [u16]
    requires there { i + 1 < length starts.now }
    requires parts { Parts starts.now entries.now }
    ensures { result.now ≡ part_at starts.now entries.now i }
{
    &entries[starts[i] as usize..starts[i + 1] as usize]
}
