// What a reader must believe: the types of the mask decomposer, and in specs/ every rule of docs/RULES.md as an executable definition. All other crates stand on
// this one, but for `bitset` and `files`, which know nothing of masks.
#![tactic(auto)]

mod answers;
mod layer;
mod refusal;
mod valid;

pub use answers::{Decomposition, LayerRead, Score, Scoring, Verdict};
pub use layer::{Edge, Piece, Settings, mask_in_range, stated_mask};
pub use refusal::{Place, Refusal, Refused};
pub use valid::ValidLayer;
