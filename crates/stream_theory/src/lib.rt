// What is proved of the definitions of GDSII streams (RULES 16): that every stream comes to an end of its own, what a rectangle is, and worked
// cases. There is no code here. The crates that read streams, `demands` and `loader` stand on it.
#![tactic(auto)]
