// What every pass of a writer rests on: what a writer has sent, the four columns that a pass takes
// (`lent`), and stores into a buffer that the caller lends. An empty buffer takes nothing: a pass into
// it is a dry run. specs/Sent.antt says what counts as sent and which words are then due,
// specs/Columns.antt which events four columns hold, and specs/Storing.antt what bytes stored
// piece by piece come to.

#![tactic(auto)]

ghost use Rattle.std.specs.Prelude.{◌≡◌, cond, ◌+◌, ◌^◌, ◌≤◌, ◌<◌, pos, length, get_or, set};
ghost use Rattle.std.proofs.lemmas.List.Edits.{sets};
ghost use Rattle.laws_stream.specs.Words.{bytes};
ghost use Rattle.write_buffer.specs.Columns.{Whole};
ghost use Rattle.evt_types.specs.Num.{natural};
ghost use Rattle.write_buffer.specs.Sent.{sent_number, state_at};
ghost use Rattle.write_buffer.specs.Storing.{Roomy};

pub use lent::Columns;

mod lent;

// What the writer has sent: the halves of the time, and the row.
#[derive(Clone, Copy)]
pub struct EncoderState {
    pub time_high: Option<u64>,
    pub time_low: Option<u64>,
    pub y: Option<u64>,
}

// The state after some words, and where the next go.
#[derive(Clone, Copy)]
pub struct Put {
    pub state: EncoderState,
    pub at: usize,
}

// What was sent as one number, for the loops: nothing is 2^64 - 1, which no half and no row is.
pub fn sent_number(s: Option<u64>) -> u64
    ensures { result ≡ sent_number s }
{
    match s {
        None => 18446744073709551615,
        Some(g) => g,
    }
}

// The state after n inputs: as it was where there was none.
pub fn state_after(n: usize, state: EncoderState, after: EncoderState) -> EncoderState
    ensures { result ≡ state_at n state after }
{
    if 0 < n { after } else { state }
}

// A time of a column in which none is negative.
pub fn time_at(ts: &[i64], i: usize) -> u64
    requires { (i < length ts.now) × (length ts.now ≤ 2 ^ 28) × Whole ts.now }
    ensures { result ≡ natural (get_or ts.now i (pos 0)) }
{
    ts[i] as u64
}

// A byte, left out past the end.
pub fn put8(out: &mut [u8], at: usize, b: u8)
    ensures { out.new ≡ set out.old at b }
{
    if at < out.len() {
        out[at] = b;
    }
}

// A word, the low byte first. The test is one of the buffer, not of the place, so that a loop
// makes it once.
pub fn put16(out: &mut [u8], at: usize, w: u16)
    requires { (at < 2 ^ 62) × Roomy out.old at 2 }
    ensures { out.new ≡ sets out.old at (bytes 2 w) }
{
    if 0 < out.len() {
        out[at..at + 2].copy_from_slice(&w.to_le_bytes());
    }
}

pub fn put32(out: &mut [u8], at: usize, w: u32)
    requires { (at < 2 ^ 62) × Roomy out.old at 4 }
    ensures { out.new ≡ sets out.old at (bytes 4 w) }
{
    if 0 < out.len() {
        out[at..at + 4].copy_from_slice(&w.to_le_bytes());
    }
}

pub fn put64(out: &mut [u8], at: usize, w: u64)
    requires { (at < 2 ^ 61) × Roomy out.old at 8 }
    ensures { out.new ≡ sets out.old at (bytes 8 w) }
{
    if 0 < out.len() {
        out[at..at + 8].copy_from_slice(&w.to_le_bytes());
    }
}

// The place after a word of n bytes at `at`, unless its content was sent.
pub fn past(sent: bool, n: usize, at: usize) -> usize
    requires { (n < 2 ^ 62) × (at < 2 ^ 62) }
    ensures { result ≡ cond sent at (at + n) }
{
    if sent { at } else { at + n }
}
