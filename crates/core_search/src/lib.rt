// The search of the core (RULES 5, 6, 17 and 19): one component after the other, in the order of their lowest units, within one budget. Components
// are found on the edges of units; costs come from the edges of pieces. The decomposition stands on this crate, and so does `stages`.
#![tactic(auto)]

ghost use Rattle.std.specs.Prelude.{◌≡◌, length};
ghost use Rattle.core_search.specs.Core.{graph_of, Given, OneSearched, CoreSearched};
ghost use Rattle.adjacency.specs.UnitGraph.{fixed_at};
ghost use Rattle.units.specs.Merged.{Merged};

mod graph;

use adjacency::EdgeSets;
use bitset::BitSet;
use early_end::library_end;
pub use graph::UnitGraph;
use places::{Lists, Local, UnitPieces};
use search::search_component;
pub use search::{Limits, Progress};

// Searches one component, and puts its masks down at the units' numbers. `of_units` has the pieces of the graph's units, and `fixed` the units' fixed
// masks. What was in the lists says nothing.
fn search_one(
    graph: &UnitGraph,
    of_units: &UnitPieces,
    fixed: &[u8; 512],
    component: &BitSet,
    lists: &mut Lists,
    limits: Limits,
    progress: &mut Progress,
    res: &mut [u8],
)
    requires units { of_units.now.units.now ≡ graph.now.units.now }
    requires given { Given fixed.now component.now limits progress.old res.old }
    ensures { OneSearched (graph_of graph.now) (fixed_at fixed.now) component.now limits progress.old progress.new res.old res.new }
{
    let order = places::list_members(component);
    let order = order.as_slice();
    let own = places::local_fixed(order, fixed);
    let own = own.as_slice();
    lists.lay_out(graph.edges, of_units, order);
    let local = Local { lists, fixed: own };
    let end = library_end(&local, limits.masks, limits.weight);
    let best = search_component(&local, limits, end, progress);
    places::put_masks(order, &best.masks[..order.len()], res);
}

// Searches the components of the core, and puts their masks down at the units' numbers. In a frame of its own: in one with the sets of pieces the lists are
// cleared twice, and need their room on the stack twice.
#[inline(never)]
fn search_components(
    graph: &UnitGraph,
    of_units: &UnitPieces,
    merged: &EdgeSets,
    fixed: &[u8; 512],
    core: &BitSet,
    limits: Limits,
    progress: &mut Progress,
    res: &mut [u8],
)
    requires units { of_units.now.units.now ≡ graph.now.units.now }
    requires merged { Merged graph.now.edges.now.conflicts graph.now.units.now (length graph.now.units.now) merged.now.conflicts }
    requires merged_2 { Merged graph.now.edges.now.stitches graph.now.units.now (length graph.now.units.now) merged.now.stitches }
    requires given { Given fixed.now core.now limits progress.old res.old }
    ensures { CoreSearched (graph_of graph.now) (fixed_at fixed.now) core.now limits progress.old progress.new res.old res.new }
{
    let mut lists = Lists::empty();
    let mut rest = *core;
    while let Some(v) = rest.lowest() {
        let component = components::component(&merged.conflicts, &merged.stitches, &rest, v);
        search_one(
            graph, of_units, fixed, &component, &mut lists, limits, progress, res,
        );
        rest = rest.difference(&component);
    }
}

// Searches the components of the core, and puts their masks down at the units' numbers. `merged` has the edges of units, and `fixed` their fixed masks. The
// pieces of a unit are the same whatever component is searched, so they are found once.
pub fn search_core(
    graph: &UnitGraph,
    merged: &EdgeSets,
    fixed: &[u8; 512],
    core: &BitSet,
    limits: Limits,
    progress: &mut Progress,
    res: &mut [u8],
)
    requires merged { Merged graph.now.edges.now.conflicts graph.now.units.now (length graph.now.units.now) merged.now.conflicts }
    requires merged_2 { Merged graph.now.edges.now.stitches graph.now.units.now (length graph.now.units.now) merged.now.stitches }
    requires given { Given fixed.now core.now limits progress.old res.old }
    ensures { CoreSearched (graph_of graph.now) (fixed_at fixed.now) core.now limits progress.old progress.new res.old res.new }
{
    let mut sets = [BitSet::empty(); 512];
    places::pieces_of_units(graph.units, &mut sets);
    let of_units = UnitPieces {
        units: graph.units,
        sets: &sets,
    };
    search_components(graph, &of_units, merged, fixed, core, limits, progress, res);
}
