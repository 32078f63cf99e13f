// What follows from the definitions of `model` and other crates' proofs cite: lists, checks that passed, the tape read and
// written. Everything is in specs/, and in proofs/ what falls under a must-fail edit: the ceiling, kept references. There is no code
// here.
#![tactic(auto)]
