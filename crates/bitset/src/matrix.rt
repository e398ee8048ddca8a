// Square bit matrices of 512 rows, each row a set.

ghost use Rattle.std.specs.Prelude.{◌≡◌, ◌&&◌, ◌||◌, ℕ, ◌<◌, eqb};
ghost use Rattle.bitset.specs.Bits.{member, Size, Least, BothWays};

use crate::set::BitSet;

// The adjacency of a graph of at most 512 vertices: j is in row i, and i in row j, where i and j are joined. A Model would
// keep that fact to its methods; as a ghost field, a proof has it of each matrix, and clauses see no row but by `Edges`.
#[derive(Drop)]
pub struct Matrix {
    rows: [BitSet; 512],
    pub ghost both_ways: { BothWays rows },
}

impl Matrix {
    ghost use Rattle.bitset.specs.Edges.{has_edge, both, rows_without, NoEdge};

    // The graph with no edge.
    pub fn empty() -> Matrix
        ensures { NoEdge result }
    {
        Matrix {
            rows: [BitSet::empty(); 512],
        }
    }

    // Takes all edges out.
    pub fn clear(&mut self)
        ensures { NoEdge self.new }
    {
        self.rows.fill(BitSet::empty());
    }

    // Whether i and j are joined.
    pub fn has_edge(&self, i: usize, j: usize) -> bool
        requires i_bound { i < 512 }
        requires j_bound { j < 512 }
        ensures { result ≡ has_edge self.now i j }
    {
        self.rows[i].has(j)
    }

    // Joins i and j, both ways.
    pub fn join(&mut self, i: usize, j: usize)
        requires i_bound { i < 512 }
        requires j_bound { j < 512 }
        ensures { (a b : ℕ) → has_edge self.new a b ≡ (has_edge self.old a b || (eqb a i && eqb b j) || (eqb a j && eqb b i)) }
    {
        // Both at once: after one of them edges do not go both ways.
        let rows = &mut self.rows;
        rows[i].put(j);
        rows[j].put(i);
    }

    // The neighbours of i that are in the set.
    pub fn neighbours_in(&self, i: usize, set: &BitSet) -> BitSet
        requires { i < 512 }
        ensures { (k : ℕ) → member result k ≡ both self.now i set.now k }
    {
        self.rows[i].intersection(set)
    }

    // How many neighbours of i are in the set: the degree of i inside the set.
    pub fn degree_in(&self, i: usize, set: &BitSet) -> usize
        requires { i < 512 }
        ensures { Size (both self.now i set.now) result }
    {
        self.neighbours_in(i, set).len()
    }

    // The least neighbour of i that is in the set.
    pub fn lowest_in(&self, i: usize, set: &BitSet) -> Option<usize>
        requires { i < 512 }
        ensures { Least (both self.now i set.now) result }
    {
        self.neighbours_in(i, set).lowest()
    }

    // The members of s that are neighbours of i in either graph and not in t.
    pub fn rows_without(&self, other: &Matrix, i: usize, s: &BitSet, t: &BitSet) -> BitSet
        requires { i < 512 }
        ensures { (k : ℕ) → k < 512 → member result k ≡ rows_without self.now other.now i s.now t.now k }
    {
        let either = self.rows[i].union(&other.rows[i]);
        either.intersection(s).difference(t)
    }
}
