// Worked values of each encoding: a statement over a list, in
// specs/Bench.antt. The crate has no code of its own to run.

#![tactic(auto)]
