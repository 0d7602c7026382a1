// An index in the C interface: its records as arrays of ten 64-bit numbers, opening and slices.
// specs/Records.antt has how records are held in numbers, specs/Opening.antt and Slicing.antt which numbers
// are returned and what is promised, specs/Back.antt that nothing is lost between numbers and records, and
// that nothing else is read as a record; specs/Making.antt and Promises.antt are for the proofs.

#![tactic(auto)]

pub mod opening;
pub mod records;
pub mod slices;
