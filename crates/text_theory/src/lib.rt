// What is proved of the definitions of the layer text (RULES 9): that reading and writing are inverse, and how long a text is. There is no
// code here. The crates that read and write texts, and `demands`, stand on it.
#![tactic(auto)]
