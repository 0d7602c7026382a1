// Prophesee RAW recordings of EVT2, EVT2.1 and EVT3: all that a user calls. The code, the definitions and
// the proofs stand in the crates below; this one names what is for use from outside. No call has a
// `requires`: each takes any arguments, and answers what was asked for or a refusal, most of them as a
// `Result`, which is the field `answer` where more stands beside it. The examples named here are functions
// of the program crates/demo_examples, which runs them.
//
// Reading. `read_raw` reads a recording, header and words, into four columns that the caller lends:
// column, row, time in microseconds, polarity. `LoadOptions` has the sensor's size, an
// `Option<SensorSize>` that comes before the header's, and a limit, an `Option<usize>`; events outside of
// the size are dropped and not counted. `decode_words` reads words without a header, whose encoding the
// caller names. Where no size is known all events are kept, and the size told is the least that holds
// them. The shortest column counts. The header's lines begin with `%`, and a line `% end` is the last:
// what follows it is the body, whatever it begins with. `parse_header` reads the header alone. Examples:
// `read_recording`, `read_past_end_line`, `read_limited`, `read_words`, `read_evt21`.
//
// Numbers. `read_number` reads a decimal number, as the halves of a header's `geometry` are. It answers a
// `Result<usize, usize>`: `Ok` with the value, or `Err` with the place that spoils it, counted in the text
// that it is given: the first byte that can't belong, or the digit with which the value passes 2^64 - 1,
// or the length where the text ends without a digit. What stands before the place begins some number, and
// with the byte there none. To tell what is wrong with a size, trim each half and read it. Example:
// `bad_number`.
//
// Triggers. `read_raw_triggers` and `decode_words_triggers` read the same, and beside the events the
// pulses on the camera's trigger input, into three further columns: time in microseconds, channel, value 0
// or 1. They stand in the order of their words, have no event's number, and no size drops one. Before the
// first time word there is none. A limit ends them with the word before the one that holds its last event.
// Slices and an index have none. Examples: `read_pulses`, `trigger_of_word`.
//
// Index and slices. `open` makes a `Checkpoint` for every `spacing` bytes of the body (a multiple of 4
// from 4 to 4,194,304, for EVT2.1 of 8), at least one, into records that the caller lends, and answers a
// `RawSliceSource` and how many records it made. `open_words` does so for words without a header.
// `slice_index` hands over the events from number i0 to before i1, `slice_time` those with t0 <= t < t1,
// by the source and the records that were made, `&records[..n]`; both decode from a checkpoint on. A slice
// by time ends at the first word that brings the time to t1 or more: of a recording whose times step back,
// what stands behind it isn't handed over. The module `fixed` has the same four calls over an array of 64
// records by value. Example: `slice_recording`.
//
// Writing. `RawEventSink::to_writer` is a fresh writer, which sends a header before its first words or
// none. `append` writes events in four columns into an output that the caller lends, and answers how many
// bytes it wrote and the next writer. Times are below 2^34 microseconds and never fall. In EVT3 a time
// from 2^24 on is in a later loop, and the writer sends up to two words for each loop that it passes. An
// output surely suffices with 8 bytes an event, 16 in EVT2.1, in EVT3 4 more for each loop from the last
// append's to the last time's, and 96 for a header. The size given is for the header. Appending no events
// writes nothing. Examples: `write_words`, `write_recording`, `write_evt21`, `long_show`.
//
// Cutting and resuming. A stream without a header may break off at any byte. Read what has arrived as it
// is: a broken last word is ignored, and exactly the events whose word is whole are there, with the
// numbers that they have in the whole stream. Make an index from just the bytes that have arrived; one of
// other bytes isn't theirs. To go on, drop the broken word, the bytes past a multiple of the decoder's
// `WORD_SIZE`, and behind the others let a second writer append the events that are missing, from the
// number on that reading told. `resume_words` makes that writer from the bytes that have arrived: it holds
// the coarse time, with its loops, that decoding them gives, and sends low half and row anew, since those
// of the first writer may not have arrived. The joined stream reads as all events, and its slices are
// exact. That is proved for every list of appends and every cut
// (crates/laws_handover/specs/Handover.antt). A recording with a header may break off anywhere at the
// header's end or behind it: read it with no size, so that the header's holds, and give the writer a size
// that covers all events. Count whole words from where the body starts, and resume with `resume_raw`,
// whose writer sends no header (crates/laws_handover/specs/Headed.antt). `resume` makes the writer behind
// a decoder. Each answers a `Resumed`: the writer, and `Ok(())` or the refusal, beside which the writer is
// a fresh one. A resumed writer refuses an event below the coarse time that it holds (6), and no other for
// being early, not even one before the last that has arrived: append just those that are missing. Where
// all events are below 2^24, and in EVT2 and EVT2.1, a fresh writer that sends no header resumes as well.
// Examples: `resume_stream`, `resume_recording`; with a fresh writer `cut_and_resume`, `cut_recording`.
//
// Single words. `Evt2Decoder`, `Evt21Decoder`, `Decoder` (EVT3) and `Codec` (any) step over one word, by
// value (`step`) or lent (`decode`). `step` answers a `Decoded`: the next decoder, and the word's events
// or the refusal. `EventVector::next` takes out the word's events one by one: it answers an `Option` of an
// event and the vector without it. `decoder_after` has the decoder after all whole words of some bytes,
// `decoder_after_raw` the one after a recording's body. Examples: `decode_singly`, `decode_after`.
//
// Refusals. A `Refusal` is an error type, with a `Display`; `u32::from(refusal)` is its number in the
// table of docs/RULES.md, and `u32::from(encoding)` that of an `Encoding`. 5, 9, 11 and 13 tell how many
// places, records, bytes or places for triggers are needed: lend as many, and call again. A refused call
// alters no buffer, and returns the writer or the decoder that it was given as it was. An accepted one
// alters nothing behind what it hands over. Examples: `no_encoding`, `columns_too_short`,
// `records_too_few`, `output_too_short`, `times_fall`, `triggers_too_many`.

#![tactic(auto)]

pub use evt_codec::Codec;
pub use evt_types::{
    Decoded, Encoding, EventVector, EvtVersion, RawEvent, RawTrigger, Refusal, SensorSize,
};
pub use evt2_decoder::Evt2Decoder;
pub use evt3_decoder::Decoder;
pub use evt21_decoder::Evt21Decoder;
pub use header::{Header, parse_header};
pub use header_text::number::read_number;
pub use index_build::{Checkpoint, OpenOptions, Opening, RawSliceSource, WordsOptions};
pub use index_open::{open, open_words};
pub use read::{LoadOptions, Reading, decode_words, read_raw};
pub use read_after::{decoder_after, decoder_after_raw};
pub use read_triggers::{TriggerReading, decode_words_triggers, read_raw_triggers};
pub use slice::{slice_index, slice_time};
pub use write_append::{Appended, RawEventSink, append};
pub use write_buffer::EncoderState;
pub use write_resume::{Resumed, resume, resume_raw, resume_words};

pub mod fixed;
