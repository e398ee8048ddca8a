// Scores, with the questions before them.
ghost use Rattle.std.specs.Prelude.{◌≡◌, ◌≤◌, length};
ghost use Rattle.rules.specs.Answers.{answer_of};
ghost use Rattle.rules.specs.Calls.{score_masks};
ghost use Rattle.rules.specs.Questions.{ask_each};
ghost use Rattle.scoring.specs.MaskQuestions.{mask_question, tallied, units_scored};

use adjacency::DrawnLayer;
use bitset::Matrix;
use counting::score_of;
use pair_tests::{Tally, test_pairs};
use rules::{Piece, Place, Refusal, Refused, Scoring, Settings, ValidLayer, mask_in_range};

// Question 8 of each mask.
fn judge_masks(limit: u32, masks: &[u8]) -> Result<(), Refused>
    requires { length masks.now ≤ 512 }
    ensures { answer_of result ≡ ask_each (mask_question limit masks.now) (length masks.now) }
{
    for (i, mask) in masks.iter().enumerate() {
        if !mask_in_range(limit, *mask) {
            return Err(Refusal::MaskRange.at(Place::Piece(i as u32)));
        }
    }
    Ok(())
}

// The score of the counted conflicts and stitches, and beside it the pairs tested.
fn scoring_of(weight: u32, tally: Tally) -> Scoring
    requires weight_bound { weight ≤ 1000 }
    requires conflicts_bound { tally.conflicts ≤ 130816 }
    requires stitches_bound { tally.stitches ≤ 130816 }
    ensures { result ≡ tallied weight tally }
{
    Scoring {
        score: score_of(weight, tally.conflicts, tally.stitches),
        tested: tally.tested,
    }
}

// The score of masks on a layer, or refusal 12.
#[tactic(auto, using(adjacency::proofs::DrawnLaws::valid_drawn, rules::proofs::Validity::layer_facts, units::proofs::TieUnits::new_front))]
fn score_units(layer: &ValidLayer, masks: &[u8]) -> Result<Scoring, Refused>
    requires { length masks.now ≡ length layer.now.pieces.now }
    ensures { answer_of result ≡ units_scored layer.now.settings layer.now.pieces.now masks.now }
{
    let mut ties = Matrix::empty();
    let mut units = [0u16; 512];
    let units = &mut units[..layer.pieces.len()];
    let drawn = DrawnLayer {
        settings: layer.settings,
        pieces: layer.pieces,
    };
    let tally = test_pairs(&drawn, masks, &mut ties);
    units::number_units(&ties, units);
    units::judge_masks(Refusal::Split, units, masks)?;
    Ok(scoring_of(layer.settings.weight, tally))
}

// The score of any masks on any pieces, with the number of pairs tested, or the first of the refusals 4 to 6, 13, 14, 7, 8 and 12.
pub fn score(settings: Settings, pieces: &[Piece], masks: &[u8]) -> Result<Scoring, Refused>
    ensures { answer_of result ≡ score_masks settings pieces.now masks.now }
{
    let layer = fixed_masks::judge(settings, pieces)?;
    if masks.len() != pieces.len() {
        return Err(Refusal::MaskCount.at(Place::Nothing));
    }
    judge_masks(settings.masks, masks)?;
    score_units(&layer, masks)
}
