// The edges of units, from those of pieces. Only edges are visited, each from its greater piece. That there are at most 512 units and each number is below 512 stands
// in the contracts here: a graph of units (`core_search`), which has it, also has edges of no two kinds, and merging asks no caller for that.
ghost use Rattle.std.specs.Prelude.{◌||◌, ◌≡◌, ℕ, ◌≤◌, ◌<◌, length};
ghost use Rattle.bitset.specs.Edges.{has_edge};
ghost use Rattle.adjacency.specs.UnitGraph.{unit_at};
ghost use Rattle.units.specs.Steps.{two_units, MergedRow};
ghost use Rattle.units.specs.Merged.{Merged};

use adjacency::EdgeSets;
use bitset::{BitSet, Matrix};

// Joins two units. An edge inside a unit joins nothing.
fn join_units(merged: &mut Matrix, x: usize, y: usize)
    requires x_bound { x < 512 }
    requires y_bound { y < 512 }
    ensures { (a b : ℕ) → has_edge merged.new a b ≡ (has_edge merged.old a b || two_units x y a b) }
{
    if x != y {
        merged.join(x, y);
    }
}

// Joins the unit of piece j to those of its neighbours before it.
fn merge_row(words: &Matrix, units: &[u16], j: usize, merged: &mut Matrix)
    requires few { length units.now ≤ 512 }
    requires j_bound { j < length units.now }
    requires by_index { (i : ℕ) → i ≤ j → unit_at units.now i < 512 }
    ensures { MergedRow words.now units.now j merged.old merged.new }
{
    let unit = usize::from(units[j]);
    for i in words.neighbours_in(j, &BitSet::below(j)).members() {
        join_units(merged, usize::from(units[i]), unit);
    }
}

// Fills the words of units from those of the pieces that have one, whatever was in them.
fn merge_words(words: &Matrix, units: &[u16], merged: &mut Matrix)
    requires few { length units.now ≤ 512 }
    requires by_index { (i : ℕ) → i < length units.now → unit_at units.now i < 512 }
    ensures { Merged words.now units.now (length units.now) merged.new }
{
    merged.clear();
    for j in 0..units.len() {
        merge_row(words, units, j, merged);
    }
}

// Fills the edges of units from those of the pieces that have one, whatever was in them.
pub fn merge_edges(edges: &EdgeSets, units: &[u16], merged: &mut EdgeSets)
    requires few { length units.now ≤ 512 }
    requires by_index { (i : ℕ) → i < length units.now → unit_at units.now i < 512 }
    ensures conflicts { Merged edges.now.conflicts units.now (length units.now) merged.new.conflicts }
    ensures stitches { Merged edges.now.stitches units.now (length units.now) merged.new.stitches }
{
    merge_words(&edges.conflicts, units, &mut merged.conflicts);
    merge_words(&edges.stitches, units, &mut merged.stitches);
}
