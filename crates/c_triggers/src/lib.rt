// Values of the C interface for triggers: the answer of reading with triggers, and the trigger of one
// word. specs/Reading.antt has which numbers reading returns and what it promises over seven columns,
// specs/Word.antt what a decoder's numbers and some bytes come to; specs/Promises.antt is for the proofs.

#![tactic(auto)]

pub mod reading;
pub mod word;
