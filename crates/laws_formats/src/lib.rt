// The encodings are lawful formats: the decoders of `evt_codec` read back what the writers of `write_words`
// send, cut at any byte, resumed by a fresh writer, and sliced by time. What an encoding can
// say and when a decoder is ready for it stands in specs/Ready.antt, the formats in
// specs/Lawful2.antt, specs/Lawful21.antt and specs/Lawful3.antt, the proofs in the files of
// proofs/ of the same names, and the laws for each encoding, over lists of appends, in
// proofs/Appends.antt. The crate has no code of its own to run.

#![tactic(auto)]
