// The laws of the definitions in `rules`, in proofs/ by subject, and demand 3 as a theorem. There is
// no code here. The crates of the decomposition cite these laws.
#![tactic(auto)]
