// Laws of machines that read words and emit events: runs, words of bytes, cuts and resumed
// streams, checkpoints, selections, columns, masks and time that loops. No format stands here:
// every law holds for any state, word and event type. The crate has no code of its own to run;
// definitions and laws are in specs/, laws that rest on others in proofs/.

#![tactic(auto)]
