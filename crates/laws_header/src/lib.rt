// What a writer puts before its words is read back: a header that is written for any encoding and size
// names that encoding and that size, and ends where the body starts. specs/ReadBack.antt has the laws,
// specs/Numbers.antt those of decimal numbers. The crate has no code of its own to run.

#![tactic(auto)]
