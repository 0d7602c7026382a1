// A writer that resumes in the C interface. specs/Resume.antt has what resuming comes to and its answer
// in numbers, specs/Laws.antt that they are always a writer's and read back as the library's own;
// specs/Promises.antt is for the proofs.

#![tactic(auto)]

pub mod resume;
