// How far two intervals overlap, and how far they are apart. Where the difference of RULES 2 is negative the overlap is 0, and where
// it is positive the gap is 0.
ghost use Rattle.std.specs.Prelude.{◌≡◌, ◌+◌, ◌-◌, min, max, eqb};

use rules::Piece;

// What a piece covers in one direction.
#[derive(Clone, Copy)]
pub struct Interval {
    pub from: u32,
    pub to: u32,
}

impl Interval {
    // What the piece covers in X.
    pub fn in_x(p: Piece) -> Interval
        ensures { result ≡ record { from = p.x1; to = p.x2 } }
    {
        Interval {
            from: p.x1,
            to: p.x2,
        }
    }

    // And in Y.
    pub fn in_y(p: Piece) -> Interval
        ensures { result ≡ record { from = p.y1; to = p.y2 } }
    {
        Interval {
            from: p.y1,
            to: p.y2,
        }
    }

    pub fn overlap(self, other: Interval) -> u32
        ensures { result ≡ min self.to other.to - max self.from other.from }
    {
        self.to
            .min(other.to)
            .saturating_sub(self.from.max(other.from))
    }

    pub fn gap(self, other: Interval) -> u32
        ensures { result ≡ max self.from other.from - min self.to other.to }
    {
        self.from
            .max(other.from)
            .saturating_sub(self.to.min(other.to))
    }

    // Whether the two meet in one point: neither overlap nor gap.
    pub fn meets(self, other: Interval) -> bool
        ensures { result ≡ eqb ((min self.to other.to - max self.from other.from) + (max self.from other.from - min self.to other.to)) 0 }
    {
        self.to.min(other.to) == self.from.max(other.from)
    }
}
