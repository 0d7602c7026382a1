// Slices of a recording by number and by time, over an index whose records are lent: each meets what
// specs/Slice.antt of the crate `slice_rules` defines. specs/Own.antt and specs/Opened.antt say what
// that is over an index that opening made, specs/During.antt that a slice by time is then all events
// with t0 <= t < t1 if times never fall, specs/Example.antt that it may be fewer if they do.

#![tactic(auto)]

ghost use Rattle.slice_rules.specs.Slice.{SlicesIndex, SlicesTime};
ghost use Rattle.slice_rules.specs.From.{passed_from, SlicesFrom, Startable};
ghost use Rattle.slice.specs.Asked.{SlicesAsked};

use evt_types::Refusal;
use index_build::{Checkpoint, RawSliceSource};
use index_records::Judge;
use read_select::Window;
use slice_rules::Asked;

// The slice from the record `start` on; `ok` tells whether the records are in range. `requires`:
// that one of theirs can be started at.
pub fn slice_from(
    recording: &[u8],
    source: RawSliceSource,
    window: Window,
    ok: bool,
    start: Checkpoint,
    xs: &mut [u16],
    ys: &mut [u16],
    ts: &mut [i64],
    ps: &mut [u8],
) -> Result<usize, Refusal>
    requires { Startable source ok start }
    ensures { SlicesFrom recording.now source ok (passed_from recording.now window start) result
        xs.old ys.old ts.old ps.old
        xs.new ys.new ts.new ps.new }
{
    let at = slice_rules::start_of(recording.len(), source, ok, start.byte_offset)?;
    let delivered = read_deliver::deliver(
        &recording[at..],
        start.codec,
        window,
        start.event_index as u64,
        &mut *xs,
        &mut *ys,
        &mut *ts,
        &mut *ps,
    );
    slice_rules::answer_of(delivered)
}

// What is asked for, from the record on that the index has for it.
pub fn slice_asked<R: Judge>(
    recording: &[u8],
    source: RawSliceSource,
    records: &R,
    asked: Asked,
    xs: &mut [u16],
    ys: &mut [u16],
    ts: &mut [i64],
    ps: &mut [u8],
) -> Result<usize, Refusal>
    ensures { SlicesAsked recording.now source (R.listed records.now) asked result
        xs.old ys.old ts.old ps.old
        xs.new ys.new ts.new ps.new }
{
    let ok = records.in_range(source);
    let start = index_records::choose(records, asked.choice);
    slice_from(recording, source, asked.window, ok, start, xs, ys, ts, ps)
}

// The events from number i0 to before i1, the ends clamped to the total.
pub fn slice_index(
    recording: &[u8],
    source: RawSliceSource,
    records: &[Checkpoint],
    i0: usize,
    i1: usize,
    xs: &mut [u16],
    ys: &mut [u16],
    ts: &mut [i64],
    ps: &mut [u8],
) -> Result<usize, Refusal>
    ensures { SlicesIndex recording.now source records.now i0 i1 result
        xs.old ys.old ts.old ps.old
        xs.new ys.new ts.new ps.new }
{
    let asked = slice_rules::by_number(source, i0, i1);
    slice_asked(recording, source, &records, asked, xs, ys, ts, ps)
}

// The events with t0 <= t < t1, up to the first word that brings the time to t1 or more.
pub fn slice_time(
    recording: &[u8],
    source: RawSliceSource,
    records: &[Checkpoint],
    t0: i64,
    t1: i64,
    xs: &mut [u16],
    ys: &mut [u16],
    ts: &mut [i64],
    ps: &mut [u8],
) -> Result<usize, Refusal>
    ensures { SlicesTime recording.now source records.now t0 t1 result
        xs.old ys.old ts.old ps.old
        xs.new ys.new ts.new ps.new }
{
    let asked = slice_rules::by_time(source, t0, t1);
    slice_asked(recording, source, &records, asked, xs, ys, ts, ps)
}
