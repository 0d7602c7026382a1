// EVT2: the words of events, stored, or in a dry run only counted. `pass` is proved to store the
// bytes of the words that specs/Evt2.antt defines, each with a note of the event that it carries;
// specs/Pass2.antt has their bytes and the loop.

#![tactic(auto)]

ghost use Rattle.std.specs.Prelude.{◌≡◌, ◌+◌, ◌/◌, ◌^◌, ◌≤◌, ◌<◌, eqb, length};
ghost use Rattle.std.proofs.lemmas.List.Edits.{sets};
ghost use Rattle.evt_types.specs.Layout.{grain2};
ghost use Rattle.write_buffer.specs.Columns.{event, events_in};
ghost use Rattle.evt2_encoder.specs.Evt2.{high_word2, word_of2};
ghost use Rattle.write_buffer.specs.Lent.{of};
ghost use Rattle.write_buffer.specs.Storing.{Roomy};
ghost use Rattle.evt2_encoder.specs.Pass2.{Fit2, Fitting2, Within2, event_at2, event_bytes2, stream2, passed2};

use evt2_decoder::Evt2Decoder;
use write_buffer::{Columns, EncoderState, Put, sent_number, state_after};

// Nothing is cut off of what rule 7 lets pass, so these two need none of the remainders of the
// definitions.
pub fn high_word(t: u64) -> u32
    requires { t < 2 ^ 34 }
    ensures { result ≡ high_word2 t }
{
    (8 << 28) + (t / Evt2Decoder::GRAIN) as u32
}

pub fn event_word(x: u16, y: u16, t: u64, p: u8) -> u32
    requires { Fit2 (event x y t p) }
    ensures { result ≡ word_of2 (event x y t p) }
{
    let low = (t % Evt2Decoder::GRAIN) as u32;
    ((p as u32) << 28) + (low << 22) + ((x as u32) << 11) + y as u32
}

// The words of one event, at `at`, where `high` was sent last. The word of the high half is stored
// always: where it isn't due the event's word takes its place, which is faster than a branch.
fn put_event(high: u64, x: u16, y: u16, t: u64, p: u8, out: &mut [u8], at: usize) -> usize
    requires { (at < 2 ^ 60) × Roomy out.old at (length (event_bytes2 (eqb high (t / grain2)) (event x y t p))) × Fit2 (event x y t p) }
    ensures ends { result ≡ at + length (event_bytes2 (eqb high (t / grain2)) (event x y t p)) }
    ensures stores { out.new ≡ sets out.old at (event_bytes2 (eqb high (t / grain2)) (event x y t p)) }
{
    let w = event_word(x, y, t, p);
    let a = write_buffer::past(high == t / Evt2Decoder::GRAIN, Evt2Decoder::WORD_SIZE, at);
    write_buffer::put32(&mut *out, at, high_word(t));
    write_buffer::put32(&mut *out, a, w);
    a + Evt2Decoder::WORD_SIZE
}

// The words of the event at index i, whose time is t.
fn put_at(high: u64, t: u64, events: Columns, i: usize, out: &mut [u8], at: usize) -> usize
    requires { Within2 events.xs.now events.ys.now events.ps.now i × (at < 2 ^ 60)
        × Roomy out.old at (length (event_bytes2 (eqb high (t / grain2)) (event_at2 events.xs.now events.ys.now events.ps.now i t)))
        × Fit2 (event_at2 events.xs.now events.ys.now events.ps.now i t) }
    ensures ends { result ≡ at + length (event_bytes2 (eqb high (t / grain2)) (event_at2
        events.entry.xs.now events.entry.ys.now events.entry.ps.now i t)) }
    ensures stores { out.new ≡ sets out.old at (event_bytes2 (eqb high (t / grain2)) (event_at2
        events.entry.xs.now events.entry.ys.now events.entry.ps.now i t)) }
{
    put_event(
        high,
        events.xs[i],
        events.ys[i],
        t,
        events.ps[i],
        &mut *out,
        at,
    )
}

// The words of all events, from `start` on, two events an iteration, and then the odd one. (Tried: one
// an iteration, slower, 2.56 against 2.45 ns an event.) The bounds keep `at` from wrapping.
pub fn pass(state: EncoderState, events: Columns, out: &mut [u8], start: usize) -> Put
    requires { (start ≤ 2 ^ 32)
        × Roomy out.old start (length (stream2 state (of events_in events)))
        × of Fitting2 events }
    ensures passed { result ≡ passed2 state (of events_in events.entry) start }
    ensures stores { out.new ≡ sets out.old start (stream2 state (of events_in events.entry)) }
{
    let sent = state.time_high;
    let mut high = sent_number(sent);
    let mut at = start;
    let mut i: usize = 0;
    while i + 1 < events.xs.len() {
        let t = events.time(i);
        let next = events.time(i + 1);
        at = put_at(high, t, events, i, &mut *out, at);
        let sent_high = t / Evt2Decoder::GRAIN;
        at = put_at(sent_high, next, events, i + 1, &mut *out, at);
        high = next / Evt2Decoder::GRAIN;
        i += 2;
    }
    if i < events.xs.len() {
        let t = events.time(i);
        at = put_at(high, t, events, i, &mut *out, at);
        high = t / Evt2Decoder::GRAIN;
    }
    let low = state.time_low;
    let row = state.y;
    let last = EncoderState {
        time_high: Some(high),
        time_low: low,
        y: row,
    };
    let after = state_after(events.xs.len(), state, last);
    Put { state: after, at }
}
