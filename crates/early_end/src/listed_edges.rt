// The edges of a component's places, counted in their lists of earlier neighbours, and whether the library lists them.
ghost use Rattle.std.specs.Prelude.{not, ◌≡◌, ◌<◌, eqb, length};
ghost use Rattle.rules.specs.Basics.{up_to, any_of, count_of};
ghost use Rattle.rules.specs.Library.{edges_below, pair_edges, unlisted_at};
ghost use Rattle.places.specs.Local.{list_graph};

use places::{Lists, Local};

// How many of the neighbours are place u.
fn times_in(neighbours: &[u16], u: usize) -> u64
    ensures { result ≡ count_of (eqb u) neighbours.now }
{
    neighbours
        .iter()
        .filter(|place| usize::from(**place) == u)
        .count() as u64
}

// How many conflict edges place v has with the earlier place u.
fn conflicts_at(lists: &Lists, u: usize, v: usize) -> u64
    requires { v < length lists.now }
    ensures { result ≡ (list_graph lists.now).conflicts u v }
{
    times_in(lists.conflicts_of(v), u)
}

// The same where there is a place v, else 0.
fn edges_at(local: &Local, u: usize, v: usize) -> u64
    ensures { result ≡ edges_below (list_graph local.now.lists.now) (length local.now.fixed.now) u v }
{
    if v < local.fixed.len() {
        conflicts_at(local.lists, u, v)
    } else {
        0
    }
}

// The edges of the ten pairs of five places, in the order of the library's bits.
pub fn edge_counts(local: &Local) -> [u64; 10]
    ensures { result ≡ pair_edges (list_graph local.now.lists.now) (length local.now.fixed.now) }
{
    let at = |u: usize, v: usize| edges_at(local, u, v);
    [
        at(0, 1),
        at(0, 2),
        at(0, 3),
        at(0, 4),
        at(1, 2),
        at(1, 3),
        at(1, 4),
        at(2, 3),
        at(2, 4),
        at(3, 4),
    ]
}

// Whether place v has no stitch edge to an earlier place, and no conflict edge that is doubled.
fn place_listed(lists: &Lists, v: usize) -> bool
    requires { v < length lists.now }
    ensures { result ≡ not (unlisted_at (list_graph lists.now) v) }
{
    lists.stitches_of(v).is_empty() && (0..v).all(|u| conflicts_at(lists, u, v) <= 1)
}

// Whether the library lists the edges of all places.
pub fn all_listed(local: &Local) -> bool
    ensures { result ≡ not (any_of (unlisted_at (list_graph local.now.lists.now)) (up_to (length local.now.fixed.now))) }
{
    (0..local.fixed.len()).all(|v| place_listed(local.lists, v))
}
