// The run on a judged layer: its units are decomposed, with the fixed masks of their pieces, each piece gets its unit's mask, and the masks are scored.
ghost use Rattle.std.specs.Prelude.{◌≡◌, ◌≤◌, length};
ghost use Rattle.rules.specs.Answers.{run_of};
ghost use Rattle.rules.specs.Decomposition.{run};
ghost use Rattle.rules.specs.Demands.{AgainstLarger};
ghost use Rattle.rules.specs.Units.{spread};
ghost use Rattle.adjacency.specs.UnitGraph.{unit_at};
ghost use Rattle.theory.proofs.Merging.{Grouping};

use crate::stages::decompose_units;
use adjacency::{DrawnLayer, EdgeSets};
use core_search::UnitGraph;
use rules::{Decomposition, Piece, ValidLayer};

// Gives each piece its unit's mask. A unit's number is no higher than its pieces and has its own mask already.
fn spread_masks(units: &[u16], masks: &mut [u8])
    requires units_len { length masks.old ≤ length units.now }
    requires grouping { Grouping (unit_at units.now) (length masks.old) }
    ensures { masks.new ≡ spread (unit_at units.now) (length masks.old) masks.old }
{
    for i in 0..masks.len() {
        masks[i] = masks[usize::from(units[i])];
    }
}

// The run.
#[tactic(auto, using(adjacency::proofs::DrawnLaws::valid_drawn, rules::proofs::Validity::layer_facts, units::proofs::TieUnits::new_front))]
pub fn decompose(layer: &ValidLayer, masks: &mut [u8]) -> Decomposition
    requires { length masks.old ≡ length layer.now.pieces.now }
    ensures masks_after { run_of result masks.new ≡ run layer.now.settings layer.now.pieces.now }
    ensures against_larger { AgainstLarger layer.now.settings layer.now.pieces.now (run_of result masks.new) }
{
    let mut edges = EdgeSets::empty();
    let mut units = [0u16; 512];
    let units = &mut units[..layer.pieces.len()];
    let drawn = DrawnLayer {
        settings: layer.settings,
        pieces: layer.pieces,
    };
    let all = units::layer_units(&drawn, &mut edges, units);
    let mut noted = [Piece::UNSET; 512];
    // A judged layer has no piece that differs from its unit (question 14), so that what is answered is `None`.
    let given = units::fixed_masks_of(layer.pieces);
    units::note_masks(units, given.as_slice(), &mut noted);
    let graph = UnitGraph {
        edges: &edges,
        units,
    };
    let searched = decompose_units(layer.settings, &graph, &noted, &all, masks);
    spread_masks(units, masks);
    let score = counting::score_edges(layer.settings.weight, &edges, masks);
    Decomposition {
        score,
        steps: searched.steps,
        verdict: searched.verdict,
    }
}
