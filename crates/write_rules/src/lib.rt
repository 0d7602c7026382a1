// What an append is judged by, the output aside: a writer in range, and columns of one length, short
// enough, in order and in range (rules 10, 12, 4, 6 and 7). `check_append` is proved to answer the
// first rule that applies. specs/Range.antt says what each asks for, specs/Rules.antt their order.

#![tactic(auto)]

ghost use Rattle.std.specs.Prelude.{◌≡◌};
ghost use Rattle.write_rules.specs.Range.{sink_in_range};
ghost use Rattle.write_rules.specs.Rules.{fresh_sink, lengths_outcome, check_outcome, check_of};

use evt_types::{Encoding, Refusal};
use write_buffer::EncoderState;

mod columns;
mod range;

// Rule 7's bound, of every encoding: no event has this time or a later one.
pub const TIMES: u64 = 17179869184;

#[derive(Clone, Copy)]
pub struct RawEventSink {
    pub version: Encoding,
    pub header_written: bool,
    pub n_events: usize,
    pub last_t: Option<i64>,
    pub state: EncoderState,
}

impl RawEventSink {
    // A fresh writer, which sends a header before its first words or not.
    pub fn to_writer(version: Encoding, header: bool) -> Self
        ensures { result ≡ fresh_sink version header }
    {
        let state = EncoderState {
            time_high: None,
            time_low: None,
            y: None,
        };
        Self {
            version,
            header_written: !header,
            n_events: 0,
            last_t: None,
            state,
        }
    }
}

fn in_range(sink: RawEventSink) -> bool
    ensures { result ≡ sink_in_range sink }
{
    range::last(sink.version, sink.state, sink.n_events, sink.last_t)
}

// Rules 12 and 4, by the columns' lengths.
pub fn check_lengths(x: usize, y: usize, t: usize, p: usize) -> Result<(), Refusal>
    ensures { result ≡ check_of (lengths_outcome x y t p) }
{
    if !columns::same_lengths(x, y, t, p) {
        return Err(Refusal::ColumnLengths);
    }
    if 268435456 < x {
        return Err(Refusal::TooLong);
    }
    Ok(())
}

// Rules 10, 12, 4, 6 and 7.
pub fn check_append(
    sink: RawEventSink,
    xs: &[u16],
    ys: &[u16],
    ts: &[i64],
    ps: &[u8],
) -> Result<(), Refusal>
    ensures { result ≡ check_of (check_outcome sink xs.now ys.now ts.now ps.now) }
{
    if !in_range(sink) {
        return Err(Refusal::StateOutOfRange);
    }
    check_lengths(xs.len(), ys.len(), ts.len(), ps.len())?;
    let from = range::not_before(sink.version, sink.state, sink.last_t);
    let fine = columns::look_after(from, xs, ys, ts, ps)?;
    if !columns::events_in_range(fine, ts) {
        return Err(Refusal::EventOutOfRange);
    }
    Ok(())
}
