// Demand 3: lists of appends to a fresh writer, cut at any byte and resumed by a second one,
// decode and slice exactly. The crate has no code: it says of the definitions that the contracts of
// `append`, `decode_words`, `open_words`, `slice_index` and `slice_time` cite what holds of them together,
// whether the records of an index are lent or held by value (`index_fixed`).
// specs/Handover.antt is the statement, from top to bottom (`DemandThree`); proofs/DemandThree.antt proves
// it, by Calls.antt (lists of appends), EventWords.antt (the types of their words), Cut.antt (cuts) and
// Reading.antt (contracts unfolded), with what they stand on in specs/, in the files of the same names and
// Proof.antt. specs/Ran.antt is the step from appends that ran to their list, and proofs/Called.antt proves
// the same of calls that ran (`DemandThreeRan`, `DemandThreeByValue`).
// proofs/Others.antt proves that a second list always exists (`SecondListExists`), and Again.antt has what
// follows: any number of handovers, and numbers that stay through every cut.
// specs/Headed.antt states the same behind a written header, of `read_raw` and `open`, over the same
// definitions; Fronts.antt has what a list sends before its words, and proofs/Headed.antt proves it.

#![tactic(auto)]
