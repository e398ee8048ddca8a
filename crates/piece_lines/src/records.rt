// Pieces in 512 records, which are zero after them, as a layer that was read is handed back (RULES 9): they are filled where they will lie, and no list is copied into
// them. Contracts see the list of the pieces.
ghost use Rattle.std.specs.Prelude.{◌≡◌, ◌++◌, ◌-◌, ◌<◌, ◌≤◌, List, [], ◌∷◌, drop, length, replicate, take};
ghost use Rattle.rules.specs.declared.layer.Piece.{Piece};
ghost use Rattle.rules.specs.Answers.{in_records};
ghost use Rattle.rules.specs.Questions.{fix_at};
ghost use Rattle.rules.specs.Settings.{no_piece};

use rules::Piece;
use std::marker::Model;

#[derive(Clone, Copy, Drop)]
pub struct Pieces {
    records: [Piece; 512],
    count: usize,
}

impl Model for Pieces {
    ghost use Rattle.std.specs.Prelude.{◌≡◌, ◌++◌, ℕ, ◌-◌, ◌≤◌, List, drop, length, replicate, take};
    ghost use Rattle.std.proofs.Common.{arith, ap, sym, ◌∙◌, length-take-le, take-append-drop};
    ghost use Rattle.rules.specs.declared.layer.Piece.{Piece};
    ghost use Rattle.rules.specs.Answers.{in_records};
    ghost use Rattle.rules.specs.Settings.{no_piece};

    ghost Value = { List Piece };

    ghost view = { λ p. take p.count p.records };

    ghost invariant = { λ p. (p.count ≤ 512) × (length p.records ≡ 512) × (drop p.count p.records ≡ replicate (512 - p.count) no_piece) };

    ghost inverse = { λ ps. record { records = in_records ps; count = length ps } };

    ghost inverse_ok = { λ p h i. record {
      records = (ap (λ (l : List Piece). take p.count p.records ++ l) (ap (λ (n : ℕ). replicate (512 - n) no_piece) (length-take-le p.count p.records (omega (arith, h.0, h.1))) ∙ sym h.2) ∙ take-append-drop p.count p.records) i;
      count = length-take-le p.count p.records (omega (arith, h.0, h.1)) i;
    } };
}

impl Pieces {
    pub fn none() -> Pieces
        ensures { result ≡ [] }
    {
        Pieces {
            records: [Piece::default(); 512],
            count: 0,
        }
    }

    pub fn as_slice(&self) -> &[Piece]
        ensures value { result.now ≡ self.now }
        ensures few { length self.now ≤ 512 }
    {
        &self.records[..self.count]
    }

    pub fn push(&mut self, piece: Piece)
        requires { length self.old < 512 }
        ensures { self.new ≡ self.old ++ piece ∷ [] }
    {
        self.records[self.count] = piece;
        self.count += 1;
    }

    // Fixes the mask of piece i.
    pub fn fix(&mut self, i: usize, mask: u8)
        requires { i < length self.old }
        ensures { self.new ≡ fix_at i mask self.old }
    {
        prove!(i < self.count);
        self.records[i].fixed = mask;
    }

    pub fn len(&self) -> usize
        ensures value { result ≡ length self.now }
        ensures few { result ≤ 512 }
    {
        self.count
    }

    pub fn into_records(self) -> [Piece; 512]
        ensures { result ≡ in_records self }
    {
        self.records
    }
}
