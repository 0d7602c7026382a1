// A decoder, the events of a word and one event in the C interface. specs/Decoder.antt has which numbers
// are a decoder's, what they mean and what decoding promises, specs/Laws.antt that nothing is lost between
// numbers and decoders, and that nothing else is read as a decoder; specs/Stepping.antt is for the proofs.

#![tactic(auto)]

pub mod decoder;
