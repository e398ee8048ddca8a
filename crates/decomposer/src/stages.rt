// The stages on the graph of units, one call each.
ghost use Rattle.std.specs.Prelude.{true, ◌≡◌, length};
ghost use Rattle.rules.specs.Settings.{settings_in_range};
ghost use Rattle.adjacency.specs.UnitGraph.{fixed_at};
ghost use Rattle.units.specs.Merged.{Merged};
ghost use Rattle.core_search.specs.Core.{graph_of};
ghost use Rattle.decomposer.specs.Stages.{HasPlaces, HasFixed, SearchedCore, Decomposed};

use adjacency::EdgeSets;
use bitset::BitSet;
use core_search::{Limits, Progress, UnitGraph};
use rules::{Settings, Verdict};

// What the search tells beside the masks.
#[derive(Clone, Copy, Debug, PartialEq, Eq)]
pub struct Searched {
    pub steps: u32,
    pub verdict: Verdict,
}

// Searches the core and puts its masks down.
#[tactic(auto, using(rules::proofs::Ranges::settings_facts))]
fn search(
    settings: Settings,
    graph: &UnitGraph,
    merged: &EdgeSets,
    fixed: &[u8; 512],
    core: &BitSet,
    masks: &mut [u8],
) -> Searched
    requires settings_value { settings_in_range settings ≡ true }
    requires merged { Merged graph.now.edges.now.conflicts graph.now.units.now (length graph.now.units.now) merged.now.conflicts }
    requires merged_2 { Merged graph.now.edges.now.stitches graph.now.units.now (length graph.now.units.now) merged.now.stitches }
    requires has_places { HasPlaces core.now masks.old }
    requires has_fixed { HasFixed settings.masks fixed.now core.now }
    ensures { SearchedCore settings (graph_of graph.now) (fixed_at fixed.now) core.now masks.old masks.new result }
{
    let limits = Limits::from(settings);
    let mut progress = Progress::new(limits.budget);
    core_search::search_core(graph, merged, fixed, core, limits, &mut progress, masks);
    Searched {
        steps: settings.budget - progress.left as u32,
        verdict: Verdict::from(progress),
    }
}

// Decomposes the units whose numbers are in `all`, with the fixed masks of `fixed`, and puts the mask of each down at its number.
pub fn decompose_units(
    settings: Settings,
    graph: &UnitGraph,
    fixed: &[u8; 512],
    all: &BitSet,
    masks: &mut [u8],
) -> Searched
    requires settings_value { settings_in_range settings ≡ true }
    requires has_places { HasPlaces all.now masks.old }
    requires has_fixed { HasFixed settings.masks fixed.now all.now }
    ensures { Decomposed settings (graph_of graph.now) (fixed_at fixed.now) all.now masks.old masks.new result }
{
    let mut merged = EdgeSets::empty();
    units::merge_edges(graph.edges, graph.units, &mut merged);
    let mut there = *all;
    let removals = reduction::peel(settings.masks, &merged, fixed, &mut there);
    masks.fill(0);
    let searched = search(settings, graph, &merged, fixed, &there, masks);
    reduction::put_back(
        settings.masks,
        &merged.conflicts,
        removals.as_slice(),
        &there,
        masks,
    );
    searched
}
