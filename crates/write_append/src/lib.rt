// The writer: events in four columns, written as words into a buffer that the caller lends, or
// refused by number. `append` is proved to answer and to leave what specs/Append.antt says. What it
// is judged by stands in `write_rules`, the header in `write_header`, the words in `write_words`.

#![tactic(auto)]

ghost use Rattle.std.specs.Prelude.{◌≡◌, cond, ◌||◌, ◌+◌, ◌^◌, ◌<◌, leb, length};
ghost use Rattle.std.proofs.lemmas.List.Edits.{sets};
ghost use Rattle.write_buffer.specs.Lent.{of};
ghost use Rattle.write_buffer.specs.Storing.{Roomy};
ghost use Rattle.write_words.specs.Encode.{Fitting};
ghost use Rattle.write_append.specs.Append.{header_due, some, last_after, sends, AppendOwed};
ghost use Rattle.write_append.specs.Ends.{sink_with, wrote, Suffices};

use evt_types::Refusal;
use write_buffer::{Columns, EncoderState, Put};
pub use write_rules::RawEventSink;

#[derive(Clone, Copy)]
pub struct Appended {
    pub sink: RawEventSink,
    pub answer: Result<usize, Refusal>,
}

// A header is due before the first events.
fn header_due(sink: RawEventSink, xs: &[u16]) -> bool
    ensures { result ≡ header_due sink xs.now }
{
    !sink.header_written && 0 < xs.len()
}

fn header_after(sink: RawEventSink, xs: &[u16]) -> bool
    ensures { result ≡ (sink.header_written || some xs.now) }
{
    sink.header_written || 0 < xs.len()
}

fn last_after(last: Option<i64>, ts: &[i64]) -> Option<i64>
    ensures { result ≡ last_after last ts.now }
{
    let n = ts.len();
    if 0 < n { Some(ts[n - 1]) } else { last }
}

// The sink after events are written, which leave the encoder in `state`.
fn next_sink(sink: RawEventSink, state: EncoderState, xs: &[u16], ts: &[i64]) -> RawEventSink
    requires { sink.n_events + length xs.now < 2 ^ 64 }
    ensures { result ≡ sink_with sink state xs.now ts.now }
{
    RawEventSink {
        version: sink.version,
        header_written: header_after(sink, xs),
        n_events: sink.n_events + xs.len(),
        last_t: last_after(sink.last_t, ts),
        state,
    }
}

// The header, where it is due, and the words, from the front of `out`, where all has room or there
// is no byte.
fn write(sink: RawEventSink, width: usize, height: usize, events: Columns, out: &mut [u8]) -> Put
    requires { of (Suffices sink width height) events
        × Roomy out.old 0 (length (of (sends sink width height) events))
        × of (Fitting sink.version) events }
    ensures wrote { result ≡ of (wrote sink width height) events.entry }
    ensures stores { out.new ≡ sets out.old 0 (of (sends sink width height) events.entry) }
{
    let due = header_due(sink, events.xs);
    let at = write_header::put_due(due, sink.version, width, height, &mut *out);
    write_words::pass(sink.version, sink.state, events, &mut *out, at)
}

// The bytes that are needed where there are fewer, and else 0. A header needs at most 96: where that
// and the most bytes of the events and of the loops that they pass have room nothing is measured.
fn shortfall(sink: RawEventSink, width: usize, height: usize, events: Columns, room: usize) -> usize
    requires { of (Suffices sink width height) events
        × of (Fitting sink.version) events }
    ensures { result ≡ cond (leb (length (of (sends sink width height) events.entry)) room) 0
        (length (of (sends sink width height) events.entry)) }
{
    let loops = write_words::evt3::loops_ahead(sink.state.time_high, events.ts);
    if 96 + write_words::most_bytes(sink.version, events.xs.len(), loops) <= room {
        return 0;
    }
    let mut none = [0u8; 0];
    let put = write(sink, width, height, events, &mut none);
    let need = put.at;
    if need <= room { 0 } else { need }
}

// Appends events. A refusal returns the sink as it was, and leaves the output alone.
pub fn append(
    sink: RawEventSink,
    width: usize,
    height: usize,
    xs: &[u16],
    ys: &[u16],
    ts: &[i64],
    ps: &[u8],
    output: &mut [u8],
) -> Appended
    ensures { AppendOwed sink width height xs.now ys.now ts.now ps.now
        output.old result output.new }
{
    let verdict = write_rules::check_append(sink, xs, ys, ts, ps);
    match verdict {
        Err(refusal) => Appended {
            sink,
            answer: Err(refusal),
        },
        Ok(()) => {
            let events = Columns { xs, ys, ts, ps };
            let need = shortfall(sink, width, height, events, output.len());
            if need == 0 {
                let put = write(sink, width, height, events, &mut *output);
                let next = next_sink(sink, put.state, xs, ts);
                Appended {
                    sink: next,
                    answer: Ok(put.at),
                }
            } else {
                Appended {
                    sink,
                    answer: Err(Refusal::OutputTooShort(need)),
                }
            }
        }
    }
}
