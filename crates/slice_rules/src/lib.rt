// What a slice asks for and answers: by number and by time, with the rules by which it is refused.
// specs/Slice.antt has what slices answer and hand over, by the table of docs/RULES.md; specs/From.antt what
// the parts say, each proved; specs/Laws.antt that the parts come to it.

#![tactic(auto)]

ghost use Rattle.std.specs.Prelude.{◌≡◌};
ghost use Rattle.slice_rules.specs.From.{asked_by_number, asked_by_time, answer_of, start_of};

use evt_types::num::natural_time;
use evt_types::{MOST_BYTES, Refusal, SensorSize};
use index_build::RawSliceSource;
use index_records::Choice;
use read_select::Window;

// What a slice asks for: which record it starts at, and which events it hands over.
#[derive(Clone, Copy)]
pub struct Asked {
    pub choice: Choice,
    pub window: Window,
}

// By number, the ends clamped to the total.
pub fn by_number(source: RawSliceSource, i0: usize, i1: usize) -> Asked
    ensures { result ≡ asked_by_number source i0 i1 }
{
    let first = i0.min(source.n_events);
    let end = i1.min(source.n_events).max(first);
    let window = Window {
        width: source.width as u64,
        height: source.height as u64,
        n0: first as u64,
        n1: end as u64,
        t0: 0,
        t1: u64::MAX,
    };
    Asked {
        choice: Choice::ByNumber(first),
        window,
    }
}

// By time: a negative bound acts as 0.
pub fn by_time(source: RawSliceSource, t0: i64, t1: i64) -> Asked
    ensures { result ≡ asked_by_time source t0 t1 }
{
    let window = Window {
        width: source.width as u64,
        height: source.height as u64,
        n0: 0,
        n1: u64::MAX,
        t0: natural_time(t0),
        t1: natural_time(t1),
    };
    Asked {
        choice: Choice::ByTime(t0),
        window,
    }
}

pub fn answer_of(delivered: Result<usize, usize>) -> Result<usize, Refusal>
    ensures { result ≡ answer_of delivered }
{
    delivered.map_err(Refusal::ColumnsTooShort)
}

// Where a recording of `len` bytes is started at for a record's `offset`, by the rules 4, 1, 8 and
// 10; `ok` tells whether the records are in range.
pub fn start_of(
    len: usize,
    source: RawSliceSource,
    ok: bool,
    offset: usize,
) -> Result<usize, Refusal>
    ensures { result ≡ start_of len source ok offset }
{
    if MOST_BYTES < len {
        return Err(Refusal::TooLong);
    }
    let size = SensorSize {
        width: source.width,
        height: source.height,
    };
    if header::has_zero(Some(size)) {
        return Err(Refusal::InvalidSensorSize);
    }
    if !index_build::spacing_ok(source.encoding, source.spacing) {
        return Err(Refusal::InvalidSpacing);
    }
    if !ok {
        return Err(Refusal::StateOutOfRange);
    }
    Ok(offset.min(len))
}
