// Bit sets: sets of numbers below 512 in eight words of 64 bits, square bit matrices of 512 such sets, which hold the
// adjacency of a graph, and sets of masks. A bit set is a set of vertices, and a row is a vertex's neighbours. What builds
// adjacency, peels vertices of low degree, finds components and picks masks stands on this crate.
//
// Contracts see a set as the list of its words, and say of each number that can be a member whether it is one afterwards, so
// no caller looks at words. Of a matrix they say which numbers are joined.
//
// A loop over a set is `for v in set.members()`, and over a row `for v in matrix.neighbours_in(i, &set).members()`. Its
// invariant reads what is left as `l.v-iterator`, which begins as the set and ends with no member, so the loop needs no
// measure. In an answer `c.in-Some.ensures.steps` says that v was taken out of `c.loop-v.v-iterator` (a `Taken`), which leaves
// `c.next.new.self`, and `c.in-None.ensures.steps.0` that no member was left.
#![tactic(auto)]

ghost use Rattle.std.specs.Prelude.{◌≡◌, ◌&&◌, ◌||◌, not, false, ℕ, ◌<◌, ◌≤◌, eqb, ltb};
ghost use Rattle.bitset.specs.Bits.{bit, member, count_below, Empty, LowestSet, Dropped};

pub use masks::MaskSet;
pub use matrix::Matrix;
pub use set::{BitSet, Members};

mod masks;
mod matrix;
mod set;

// ---- words

// The lowest set bit of a word that is not 0.
pub fn lowest_bit(x: u64) -> usize
    requires { 0 < x }
    ensures { LowestSet x result }
{
    u64::trailing_zeros(x) as usize
}

// The word without its lowest set bit. It is less than x, so a loop that drops bits until the word is 0 ends.
pub fn drop_lowest(x: u64) -> u64
    requires { 0 < x }
    ensures { Dropped x result }
{
    x & (x - 1)
}

// How many bits of a word are set.
fn ones(x: u64) -> usize
    ensures { result ≡ count_below 64 (bit x) }
{
    u64::count_ones(x) as usize
}

// The bits that a has and b has not.
fn minus(a: u64, b: u64) -> u64
    ensures { (k : ℕ) → k < 64 → bit result k ≡ (bit a k && not (bit b k)) }
{
    a & !b
}
