// A writer in the C interface. specs/Writer.antt has which numbers are a writer's, what they mean and
// what appending promises, specs/Laws.antt that nothing is lost between numbers and writers, and that
// nothing else is read as a writer; specs/Promises.antt is for the proofs.

#![tactic(auto)]

pub mod writer;
