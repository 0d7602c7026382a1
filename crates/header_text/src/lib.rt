// What header lines are written in: texts (blanks are trimmed, the case of names is ignored), decimal
// numbers, and sizes. Proved: each function yields what specs/Text.antt, specs/Number.antt or
// specs/Size.antt says, for any bytes; those that another crate can call ask for nothing.
// specs/Place.antt says what the place of a bad number is, and proofs/PlaceLaws.antt has the laws of it;
// specs/Parts.antt has the classes of bytes that the code scans for, specs/Cases.antt one law for proofs.

#![tactic(auto)]

pub mod number;
pub mod size;
pub mod text;
