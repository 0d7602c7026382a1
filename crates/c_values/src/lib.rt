// Values of the C interface: encodings, options, the answers of reading, of a header and of the number
// reader, and a decoder's seven numbers. specs/Options.antt and Encoding.antt have what the numbers
// of an option and of an encoding mean, specs/Reading.antt and Number.antt which numbers reading and the
// number reader return and what reading promises, specs/Codec.antt how a decoder is held in numbers;
// specs/Flags.antt and Promises.antt are for the proofs.

#![tactic(auto)]

pub mod codec;
pub mod encoding;
pub mod number;
pub mod options;
pub mod reading;
pub mod refusal;
