// A layer that was judged.
ghost use Rattle.rules.specs.Questions.{Valid};

use crate::layer::{Piece, Settings};

// Settings and lent pieces that no question refuses (RULES 11). What takes one need not ask again.
#[derive(Clone, Copy)]
pub struct ValidLayer<'a> {
    pub settings: Settings,
    pub pieces: &'a [Piece],
    ghost valid: { Valid settings pieces.now },
}
