// The public call on two pieces (RULES 12): the edge between them, where the layer of these two is valid. `records` hands it on, and the program `cases` stands
// on it.
#![tactic(auto)]

ghost use Rattle.std.specs.Prelude.{[], ◌∷◌, ◌&&◌, ◌≡◌};
ghost use Rattle.rules.specs.Answers.{answer_of};
ghost use Rattle.rules.specs.Calls.{edge_between};
ghost use Rattle.rules.specs.Edges.{tied};
ghost use Rattle.rules.specs.Score.{apart};
ghost use Rattle.rules.specs.Settings.{fixed_masks};

use edges::{judged_edge, tie};
use rules::{Edge, Piece, Place, Refusal, Refused, Settings, stated_mask};

// Whether two pieces are tied and have different fixed masks. This is question 14 of the two, which are one unit where they are tied; so it takes neither words of
// ties nor a list of units.
fn fixed_apart(settings: Settings, a: Piece, b: Piece) -> bool
    ensures { result ≡ (apart (fixed_masks (a ∷ b ∷ [])) 0 1 && tied settings a b) }
{
    match (stated_mask(a.fixed), stated_mask(b.fixed)) {
        (Some(first), Some(second)) => first != second && tie(settings, a, b),
        _ => false,
    }
}

// The edge between any two pieces, or the first refusal that the layer of these two meets.
#[tactic(auto, using(crate::proofs::TwoPieces::two_fixed), unfolding(rules::specs::Calls::edge_between, rules::specs::Questions::judge_layer))]
pub fn edge(settings: Settings, a: Piece, b: Piece) -> Result<Edge, Refused>
    ensures { answer_of result ≡ edge_between settings a b }
{
    layout::judge(settings, &[a, b])?;
    if fixed_apart(settings, a, b) {
        return Err(Refusal::FixedSplit.at(Place::Piece(1)));
    }
    Ok(judged_edge(settings, a, b))
}
