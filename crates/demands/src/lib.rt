// The demands as theorems of the rules, and how large results are. There is no code here. Demand 3 itself stands in `theory`; the
// loader's call cites the size of a result's text.
#![tactic(auto)]
