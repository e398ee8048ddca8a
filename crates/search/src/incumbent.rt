// The state of a search, and how its incumbent changes. A search that ends at a cost (RULES 19) is told by the incumbent that is made, and not by a
// test at each step: the steps left are kept aside and none is handed on, so that the test for steps left, which is made anyway, ends it.
ghost use Rattle.std.specs.Prelude.{cond, ◌≡◌};
ghost use Rattle.search.specs.Branch.{ends_at, due_in, found_in};

// The masks of the places so far, the incumbent (document 01: the holder) with its cost, whether a step was due beyond the budget, and the steps
// that were left when the search ended, where it has. As no heap is used, the arrays have room for the most places. The
// incumbent and its cost are a `Best` only when the search is over.
#[derive(Drop)]
pub struct Walk {
    pub partial: [u8; 512],
    pub incumbent: [u8; 512],
    pub cost: u64,
    pub stopped: bool,
    pub ended: Option<u64>,
}

impl Walk {
    // A step is due and none is left: the budget is used up, unless the search has ended.
    pub fn note_due(&mut self)
        ensures { self.new ≡ due_in self.old }
    {
        if self.ended.is_none() {
            self.stopped = true;
        }
    }

    // The partial assignment, of this cost, becomes the incumbent. Answers the steps that are handed on.
    pub fn hold(&mut self, end: Option<u64>, cost: u64, left: u64) -> u64
        ensures held { self.new ≡ found_in end self.old cost left }
        ensures handed { result ≡ cond (ends_at end cost) 0 left }
    {
        self.incumbent = self.partial;
        self.cost = cost;
        if end == Some(cost) {
            self.ended = Some(left);
            return 0;
        }
        left
    }
}
