// Sets of masks, of which there are at most eight.

ghost use Rattle.std.specs.Prelude.{◌≡◌, ◌||◌, false, ℕ, ◌<◌, eqb};
ghost use Rattle.bitset.specs.Bits.{bit, LowestFree};

use std::marker::Model;

// A set of masks, a bit to a mask (document 01: the masks in use).
#[derive(Drop)]
pub struct MaskSet {
    bits: u8,
}

impl Model for MaskSet {
    ghost Value = { ℕ };

    ghost view = { λ s. s.bits };
}

impl MaskSet {
    // The set with no mask.
    #[tactic(auto, using(crate::proofs::Words::bit_of_zero))]
    pub fn empty() -> MaskSet
        ensures { (k : ℕ) → bit result k ≡ false }
    {
        MaskSet { bits: 0 }
    }

    // Puts m into the set.
    pub fn put(&mut self, m: u8)
        requires { m < 8 }
        ensures { (k : ℕ) → bit self.new k ≡ (bit self.old k || eqb k m) }
    {
        self.bits |= 1 << m;
    }

    // The lowest of the eight masks that is not in the set.
    pub fn lowest_free(&self) -> Option<u8>
        ensures { LowestFree 8 self.now result }
    {
        let m = u8::trailing_zeros(!self.bits);
        if m < 8 { Some(m as u8) } else { None }
    }
}
