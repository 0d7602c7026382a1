// The theorem of cut streams for the C interface: streams that `prophesee_append` wrote, cut at any byte
// and resumed, are decoded, indexed and sliced exactly by the functions of crate `prophesee_raw_c`,
// without a header and behind a written one. The crate has no code:
// specs/Statement.antt is the statement, of calls that ran, by their contracts alone; specs/Made.antt has
// that the records of an index are read back from their numbers, specs/Writing.antt what is written,
// proofs/Reading.antt what is read by C, and proofs/DemandThreeC.antt that the statement follows from the
// theorem of `laws_handover`.

#![tactic(auto)]
