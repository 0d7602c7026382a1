// EVT3: the words of all events, run by run, stored, or in a dry run only counted. Events of one loop
// are a pass of their own: its runs need no test whether the loop is a later one.
ghost use Rattle.std.specs.Prelude.{◌≡◌, ◌-◌, ◌^◌, ◌≤◌, ◌<◌, length};
ghost use Rattle.std.proofs.lemmas.List.Edits.{sets};
ghost use Rattle.write_buffer.specs.Columns.{Whole, events_in};
ghost use Rattle.write_buffer.specs.Lent.{of};
ghost use Rattle.write_buffer.specs.Storing.{Roomy};
ghost use Rattle.evt3_lead_words.specs.Evt3.{loop_of, at_end};
ghost use Rattle.evt3_run_words.specs.Parts.{ahead_bytes};
ghost use Rattle.write_words.specs.Encode.{last_loop, Paced3};
ghost use Rattle.write_words.specs.Pass3.{Still, stream3, passed3};
ghost use Rattle.write_words.specs.Across3.{entered, LoopEnd};

use evt3_decoder::Decoder;
use evt3_lead_words::loops::put_passes;
use evt3_run_ends::run_at;
use evt3_run_words::put_run;
use write_buffer::{Columns, EncoderState, Put, sent_number, state_after, time_at};

// The loop of the half that is held: a writer that holds none is in loop 0.
pub fn loop_of(held: Option<u64>) -> u64
    ensures { result ≡ loop_of held }
{
    match held {
        None => 0,
        Some(h) => h / 4096,
    }
}

// The loops from the half that is held to the last time.
pub fn loops_ahead(held: Option<u64>, ts: &[i64]) -> u64
    requires { (length ts.now ≤ 2 ^ 28) × Whole ts.now }
    ensures { result ≡ last_loop (loop_of held) ts.now - loop_of held }
{
    let n = ts.len();
    if 0 < n {
        let last = time_at(ts, n - 1);
        (last / Decoder::PERIOD).saturating_sub(loop_of(held))
    } else {
        0
    }
}

// The words of all events, from `start` on, none of which is in a later loop than the one held. The
// bounds keep `at` from wrapping.
fn pass_still(state: EncoderState, events: Columns, out: &mut [u8], start: usize) -> Put
    requires { (start ≤ 2 ^ 37) × Still state events.ts.now
        × (length (stream3 state (of events_in events)) ≤ 2 ^ 37)
        × Roomy out.old start (length (stream3 state (of events_in events))) }
    ensures passed { result ≡ passed3 state (of events_in events.entry) start }
    ensures stores { out.new ≡ sets out.old start (stream3 state (of events_in events.entry)) }
{
    let Columns { xs, ys, ps, .. } = events;
    let sent_high = state.time_high;
    let sent_low = state.time_low;
    let sent_row = state.y;
    let mut high = sent_number(sent_high);
    let mut low = sent_number(sent_low);
    let mut row = sent_number(sent_row);
    let mut at = start;
    let mut i: usize = 0;
    let mut mask: u64 = 0;
    while i < xs.len() {
        let t = events.time(i);
        let y = ys[i];
        let run = run_at(mask, events, i);
        let end = run.end;
        at = put_run(high, low, row, t, y, ps[i], xs, i, end, &mut *out, at);
        high = t / Decoder::GRAIN;
        low = t % Decoder::GRAIN;
        row = y as u64;
        i = end;
        mask = run.mask;
    }
    let last = EncoderState {
        time_high: Some(high),
        time_low: Some(low),
        y: Some(row),
    };
    let after = state_after(xs.len(), state, last);
    Put { state: after, at }
}

// FFF is held: only 000 is due to count a loop.
fn at_end(held: Option<u64>) -> bool
    ensures { result ≡ at_end held }
{
    match held {
        None => false,
        Some(h) => h % 4096 == 4095,
    }
}

// The words into the loop of t, if that is later than the one held.
fn enter(state: EncoderState, t: u64, out: &mut [u8], at: usize) -> Put
    requires { (at ≤ 2 ^ 50) × Roomy out.old at (length (ahead_bytes state t)) }
    ensures entered { result ≡ entered state t at }
    ensures stores { out.new ≡ sets out.old at (ahead_bytes state t) }
{
    let held = state.time_high;
    let row = state.y;
    let from = loop_of(held);
    let to = t / Decoder::PERIOD;
    if from < to {
        let next = put_passes(to - from, at_end(held), &mut *out, at);
        let first = EncoderState {
            time_high: Some(to * 4096),
            time_low: Some(0),
            y: row,
        };
        return Put {
            state: first,
            at: next,
        };
    }
    Put { state, at }
}

// Where the times from `i` on leave the loop of the one at `i`.
fn loop_end(ts: &[i64], i: usize) -> usize
    requires { (i < length ts.now) × (length ts.now ≤ 2 ^ 28) × Whole ts.now }
    ensures { LoopEnd ts.now i result }
{
    let here = time_at(ts, i) / Decoder::PERIOD;
    for end in i + 1..ts.len() {
        if time_at(ts, end) / Decoder::PERIOD != here {
            return end;
        }
    }
    ts.len()
}

// The words of all events, from `start` on, loop by loop.
fn pass_across(before: EncoderState, events: Columns, out: &mut [u8], start: usize) -> Put
    requires { (start ≤ 2 ^ 32)
        × (length (stream3 before (of events_in events)) ≤ 2 ^ 36)
        × Roomy out.old start (length (stream3 before (of events_in events))) }
    ensures passed { result ≡ passed3 before (of events_in events.entry) start }
    ensures stores { out.new ≡ sets out.old start (stream3 before (of events_in events.entry)) }
{
    let Columns { xs, ys, ts, ps } = events;
    let n = xs.len();
    let mut state = before;
    let mut at = start;
    let mut i: usize = 0;
    while i < n {
        let led = enter(state, events.time(i), &mut *out, at);
        let end = loop_end(ts, i);
        let part = Columns {
            xs: &xs[i..end],
            ys: &ys[i..end],
            ts: &ts[i..end],
            ps: &ps[i..end],
        };
        let put = pass_still(led.state, part, &mut *out, led.at);
        state = put.state;
        at = put.at;
        i = end;
    }
    Put { state, at }
}

// The words of all events, from `start` on. The bounds keep the place from wrapping.
pub fn pass(state: EncoderState, events: Columns, out: &mut [u8], start: usize) -> Put
    requires { (start ≤ 2 ^ 32)
        × (length (stream3 state (of events_in events)) ≤ 2 ^ 36)
        × Roomy out.old start (length (stream3 state (of events_in events)))
        × Paced3 state (of events_in events) }
    ensures passed { result ≡ passed3 state (of events_in events.entry) start }
    ensures stores { out.new ≡ sets out.old start (stream3 state (of events_in events.entry)) }
{
    let held = state.time_high;
    if loops_ahead(held, events.ts) == 0 {
        pass_still(state, events, &mut *out, start)
    } else {
        pass_across(state, events, &mut *out, start)
    }
}
