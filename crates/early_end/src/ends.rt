// The cost at which the search of a component ends.
ghost use Rattle.std.specs.Prelude.{◌≡◌, ◌≤◌, ◌<◌, length};
ghost use Rattle.rules.specs.Library.{value_of, library_bound};
ghost use Rattle.adjacency.specs.UnitGraph.{fixed_at};
ghost use Rattle.places.specs.Local.{list_graph};
ghost use Rattle.early_end.specs.Ends.{end_of};

use crate::listed_edges::{all_listed, edge_counts};
use first_assignment::has_fixed;
use library::entry;
use places::Local;

// The number whose binary digits are the counts, the lowest first.
fn index_of(counts: &[u64; 10]) -> usize
    requires { value_of counts.now < 1024 }
    ensures { result ≡ value_of counts.now }
{
    counts
        .iter()
        .rev()
        .fold(0, |index, count| *count + 2 * index) as usize
}

// The cost at which the search ends, where the library serves the component.
pub fn library_end(local: &Local, masks: u64, weight: u64) -> Option<u64>
    requires weight_bound { weight ≤ 1000 }
    ensures { result ≡ end_of (library_bound masks weight (list_graph local.now.lists.now) (fixed_at local.now.fixed.now) (length local.now.fixed.now)) }
{
    let size = local.fixed.len();
    if masks != 3 || 5 < size {
        return None;
    }
    if has_fixed(local.fixed) || !all_listed(local) {
        return None;
    }
    let counts = edge_counts(local);
    let conflicts = u64::from(entry(index_of(&counts)));
    Some(weight * conflicts)
}
