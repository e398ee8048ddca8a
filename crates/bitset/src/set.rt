// Sets of numbers below 512.

ghost use Rattle.std.specs.Prelude.{◌≡◌, ◌&&◌, ◌||◌, not, List, ℕ, ◌<◌, ◌≤◌, eqb, ltb};
ghost use Rattle.std.specs.Iterator.{at_most};
ghost use Rattle.bitset.specs.Bits.{member, count_below, Empty, Size, Least, TakesLeast};

use crate::{drop_lowest, lowest_bit, minus, ones};
use std::array;
use std::marker::Model;

// A set of numbers below 512, a bit to a number.
#[derive(Clone, Copy, PartialEq, Eq, Drop)]
pub struct BitSet {
    pub(crate) words: [u64; 8],
}

impl Model for BitSet {
    ghost Value = { List ℕ };

    ghost view = { λ s. s.words };

    ghost inverse = { λ v. record { words = v } };
}

impl BitSet {
    // The set with no member.
    pub fn empty() -> BitSet
        ensures { Empty result }
    {
        BitSet { words: [0; 8] }
    }

    // The set of the numbers below n: words of ones, and a word whose low bits are ones.
    pub fn below(n: usize) -> BitSet
        requires { n ≤ 512 }
        ensures { (k : ℕ) → member result k ≡ ltb k n }
    {
        let mut words = [0u64; 8];
        let full = n / 64;
        words[..full].fill(!0);
        if full < 8 {
            words[full] = (1 << (n % 64)) - 1;
        }
        BitSet { words }
    }

    // Whether j is a member.
    pub fn has(&self, j: usize) -> bool
        requires { j < 512 }
        ensures { result ≡ member self.now j }
    {
        self.words[j / 64] >> (j % 64) & 1 == 1
    }

    // Puts j into the set.
    pub fn put(&mut self, j: usize)
        requires { j < 512 }
        ensures { (k : ℕ) → member self.new k ≡ (member self.old k || eqb k j) }
    {
        self.words[j / 64] |= 1 << (j % 64);
    }

    // Takes j out of the set.
    pub fn take_out(&mut self, j: usize)
        requires { j < 512 }
        ensures { (k : ℕ) → member self.new k ≡ (member self.old k && not (eqb k j)) }
    {
        self.words[j / 64] &= !(1 << (j % 64));
    }

    // How many members there are.
    pub fn len(&self) -> usize
        ensures { Size (member self.now) result }
    {
        self.words.iter().map(|word| ones(*word)).sum()
    }

    // The least member.
    pub fn lowest(&self) -> Option<usize>
        ensures { Least (member self.now) result }
    {
        self.members().next()
    }

    // Takes the least member out, and answers which it was.
    pub fn take_lowest(&mut self) -> Option<usize>
        ensures { TakesLeast self.old result self.new }
    {
        for w in 0..8 {
            let word = self.words[w];
            if word != 0 {
                self.words[w] = drop_lowest(word);
                return Some(64 * w + lowest_bit(word));
            }
        }
        None
    }

    // The members of either set.
    pub fn union(&self, other: &BitSet) -> BitSet
        ensures { (k : ℕ) → k < 512 → member result k ≡ (member self.now k || member other.now k) }
    {
        BitSet {
            words: array::from_fn(|w| self.words[w] | other.words[w]),
        }
    }

    // The members of both sets.
    pub fn intersection(&self, other: &BitSet) -> BitSet
        ensures { (k : ℕ) → member result k ≡ (member self.now k && member other.now k) }
    {
        let others = &other.words;
        BitSet {
            words: array::from_fn(|w| self.words[w] & others[w]),
        }
    }

    // The members that are not in the other set.
    pub fn difference(&self, other: &BitSet) -> BitSet
        ensures { (k : ℕ) → k < 512 → member result k ≡ (member self.now k && not (member other.now k)) }
    {
        BitSet {
            words: array::from_fn(|w| minus(self.words[w], other.words[w])),
        }
    }

    // The members, in rising order.
    pub fn members(&self) -> Members
        ensures { result ≡ self.now }
    {
        Members { rest: *self }
    }
}

// The members of a set that are still to come, in rising order. A loop over them may change the set itself.
#[derive(Drop)]
pub struct Members {
    rest: BitSet,
}

impl Model for Members {
    ghost Value = { List ℕ };

    ghost view = { λ m. m.rest };
}

impl Iterator for Members {
    type Item = usize;

    ghost next_gives = { TakesLeast };

    ghost remaining = { λ s. at_most (count_below 512 (member s)) };

    fn next(&mut self) -> Option<usize> {
        self.rest.take_lowest()
    }
}
