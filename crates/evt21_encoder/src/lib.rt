// EVT 2.1: the words of events, stored, or in a dry run only counted. `pass` is proved to store the
// bytes of the words that specs/Evt21.antt defines, each with a note of the events that it carries;
// specs/Pass21.antt has the loop.

#![tactic(auto)]

ghost use Rattle.std.specs.Prelude.{◌≡◌, true, cond, ◌+◌, ◌-◌, ◌/◌, ◌^◌, ◌≤◌, ◌<◌, eqb, ltb, length};
ghost use Rattle.std.proofs.lemmas.List.Edits.{sets};
ghost use Rattle.evt_types.specs.Layout.{word_size21, grain2};
ghost use Rattle.write_buffer.specs.Columns.{events_in};
ghost use Rattle.write_buffer.specs.Lent.{of};
ghost use Rattle.write_buffer.specs.Storing.{Roomy};
ghost use Rattle.evt2_encoder.specs.Pass2.{Fitting2};
ghost use Rattle.evt21_encoder.specs.Evt21.{high_word21, stream21};
ghost use Rattle.evt21_encoder.specs.Pass21.{upper_half, key_word, key_bytes, joins21, bit_of, passed21};

use evt2_decoder::Evt2Decoder;
use write_buffer::{Columns, EncoderState, Put, sent_number, state_after};

const WORD_SIZE: usize = 8;

// The columns of one word.
const BLOCK: u16 = 32;

// The upper half is a word of EVT 2.0, the lower the mask.
fn high_word(t: u64) -> u64
    requires { t < 2 ^ 34 }
    ensures { result ≡ high_word21 t }
{
    (evt2_encoder::high_word(t) as u64) << 32
}

// The upper half of an event's word: its word in EVT 2.0, whose column goes down to its block's first.
fn upper_half(key: u32) -> u32
    ensures { result ≡ upper_half key }
{
    key / 65536 * 65536 + key % 2048
}

fn masked_word(key: u32, mask: u32) -> u64
    ensures { result ≡ key_word key mask }
{
    ((upper_half(key) as u64) << 32) + mask as u64
}

// 1 where a number isn't above the one before it, else 0.
fn no_rise(last: u32, key: u32) -> u64
    ensures { result ≡ cond (ltb last key) 0 1 }
{
    if last < key { 0 } else { 1 }
}

// Whether an event goes on a run: its word in EVT 2.0 and the high half of its time, beside those of
// the run's last event. All is compared at once, without a branch for each. (Tried: `==` joined by `&`,
// slower, 4.84 against 4.52 ns an event.)
fn joined(last: u32, key: u32, sent: u64, high: u64) -> bool
    ensures { result ≡ joins21 last key sent high }
{
    let uppers = (upper_half(key) ^ upper_half(last)) as u64;
    let differ = uppers | (high ^ sent) | no_rise(last, key);
    differ == 0
}

// The bits of a run with that of its next event, or with that of its first.
fn with_bit(on: bool, mask: u32, x: u16) -> u32
    requires { on ≡ true → mask < bit_of x }
    ensures { result ≡ cond on mask 0 + bit_of x }
{
    let bit = 1 << (x % BLOCK) as u32;
    if on { mask + bit } else { bit }
}

// The place of a run's word again, where an event goes on the run.
fn place_of(on: bool, at: usize) -> usize
    requires { on ≡ true → word_size21 ≤ at }
    ensures { result ≡ cond on (at - word_size21) at }
{
    if on { at - WORD_SIZE } else { at }
}

// The words of an event, at `at`, where `high` was sent last: its word in EVT 2.0 is `key`, and its
// run has the bits of `mask` so far. The word of the high half is stored always: where it isn't due
// the event's word takes its place, which is faster than a branch.
fn put_words(high: u64, t: u64, key: u32, mask: u32, out: &mut [u8], at: usize) -> usize
    requires { (at < 2 ^ 60) × Roomy out.old at (length (key_bytes (eqb high (t / grain2)) t key mask)) × (t < 2 ^ 34) }
    ensures ends { result ≡ at + length (key_bytes (eqb high (t / grain2)) t key mask) }
    ensures stores { out.new ≡ sets out.old at (key_bytes (eqb high (t / grain2)) t key mask) }
{
    let w = masked_word(key, mask);
    let a = write_buffer::past(high == t / Evt2Decoder::GRAIN, WORD_SIZE, at);
    write_buffer::put64(&mut *out, at, high_word(t));
    write_buffer::put64(&mut *out, a, w);
    a + WORD_SIZE
}

// The words of all events, from `start` on. The word of a run is stored at each of its events, and
// the next event's word takes its place where that goes on the run: no event needs a branch. No
// word is above 2^32 - 1, so the first event goes on no run. The bounds keep `at` from wrapping.
pub fn pass(state: EncoderState, events: Columns, out: &mut [u8], start: usize) -> Put
    requires { (start ≤ 2 ^ 32)
        × Roomy out.old start (length (stream21 state (of events_in events)))
        × of Fitting2 events }
    ensures passed { result ≡ passed21 state (of events_in events.entry) start }
    ensures stores { out.new ≡ sets out.old start (stream21 state (of events_in events.entry)) }
{
    let sent = state.time_high;
    let mut high = sent_number(sent);
    let mut last: u32 = 4294967295;
    let mut mask: u32 = 0;
    let mut at = start;
    for (i, &x) in events.xs.iter().enumerate() {
        let t = events.time(i);
        let key = evt2_encoder::event_word(x, events.ys[i], t, events.ps[i]);
        let on = joined(last, key, high, t / Evt2Decoder::GRAIN);
        mask = with_bit(on, mask, x);
        let place = place_of(on, at);
        at = put_words(high, t, key, mask, &mut *out, place);
        high = t / Evt2Decoder::GRAIN;
        last = key;
    }
    let low = state.time_low;
    let row = state.y;
    let sent_now = EncoderState {
        time_high: Some(high),
        time_low: low,
        y: row,
    };
    let after = state_after(events.xs.len(), state, sent_now);
    Put { state: after, at }
}
