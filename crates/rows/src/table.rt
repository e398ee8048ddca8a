// The weight as a table, so that it is added to the costs of all eight masks at once, which needs no branch and no index into the costs.
ghost use Rattle.std.specs.Prelude.{◌≡◌, ◌≤◌};

use std::marker::Model;

// Row h has the weight at mask h and nothing elsewhere. A contract sees the weight.
#[derive(Drop)]
pub struct Table {
    pub(crate) weights: [[u32; 8]; 8],
}

impl Model for Table {
    ghost use Rattle.std.specs.Prelude.{ℕ};
    ghost use Rattle.rows.specs.Weights.{Weights, weight_of};

    ghost Value = { ℕ };

    ghost view = { λ t. weight_of t.weights };

    ghost invariant = { λ t. Weights t.weights (weight_of t.weights) };
}

impl Table {
    // The table of a weight.
    pub fn new(weight: u64) -> Table
        requires light { weight ≤ 1000 }
        ensures { result ≡ weight }
    {
        let mut weights = [[0u32; 8]; 8];
        for mask in 0..8 {
            weights[mask][mask] = weight as u32;
        }
        Table { weights }
    }
}
