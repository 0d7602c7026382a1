// The index with its records by value, in an array of 64: opening says how many it may make, and a
// slice how many of them count. For programs that lend no records.
pub use index_fixed::{FixedIndex, open, open_words, slice_index, slice_time};
