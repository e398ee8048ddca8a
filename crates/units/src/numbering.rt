// The unit of each piece. Units are the components of the ties, and a unit's number is its lowest piece. Each row of ties is looked at once and each
// piece is numbered once, however long a chain of ties is.
ghost use Rattle.std.specs.Prelude.{true, ◌≡◌, ℕ, ◌≤◌, ◌<◌, length};
ghost use Rattle.bitset.specs.Bits.{member};
ghost use Rattle.adjacency.specs.Adjacency.{Adjacency};
ghost use Rattle.units.specs.Steps.{GivenNumber};
ghost use Rattle.units.specs.Numbered.{Numbered, UnitsOf};

use adjacency::{DrawnLayer, EdgeSets};
use bitset::{BitSet, Matrix};

// Gives every member of a unit its number.
fn give_number(members: &BitSet, number: usize, units: &mut [u16])
    requires number_bound { number < 512 }
    requires inside { (k : ℕ) → k < 512 → member members.now k ≡ true → k < length units.old }
    ensures { GivenNumber members.now number units.old units.new }
{
    for i in members.members() {
        units[i] = number as u16;
    }
}

// Gives each piece the number of its unit, by the words of ties. Answers the set of the units' numbers. The list of units is lent: a graph of units refers to it, and it
// has as many numbers as the caller has pieces.
pub fn number_units(ties: &Matrix, units: &mut [u16]) -> BitSet
    requires { length units.old ≤ 512 }
    ensures { Numbered ties.now (length units.old) units.new result }
{
    let mut numbers = BitSet::empty();
    let mut rest = BitSet::below(units.len());
    while let Some(v) = rest.lowest() {
        // Ties are one matrix and stand for both kinds of edges, so a component is asked of two matrices.
        let unit = components::component(ties, ties, &rest, v);
        give_number(&unit, v, units);
        numbers.put(v);
        rest = rest.difference(&unit);
    }
    numbers
}

// Fills the words of edges of a layer, and numbers its units. Answers the set of the units' numbers.
pub fn layer_units(layer: &DrawnLayer, edges: &mut EdgeSets, units: &mut [u16]) -> BitSet
    requires { length units.old ≡ length layer.now.pieces.now }
    ensures adjacency { Adjacency layer.now.settings layer.now.pieces.now (length layer.now.pieces.now) edges.new.conflicts edges.new.stitches }
    ensures units_of { UnitsOf layer.now.settings layer.now.pieces.now units.new result }
{
    let mut ties = Matrix::empty();
    adjacency::adjacency_words(layer, edges, &mut ties);
    number_units(&ties, units)
}
