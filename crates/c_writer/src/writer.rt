// The writer and what an append answers, in numbers.
ghost use Rattle.std.specs.Prelude.{◌≡◌, Bool, cond, eqb, Ok, Err};
ghost use Rattle.write_append.specs.Append.{told_append};
ghost use Rattle.evt_types.specs.declared.Refusal.TheVariants.{StateOutOfRange};
ghost use Rattle.c_writer.specs.{Writer.is_sink, Writer.sink_of, Writer.flat_sink, Writer.writer_of, Writer.appended_of};

use c_values::encoding::{encoding_of, is_known};
use c_values::refusal::count_of;
use evt_types::Refusal;
use write_append::{Appended, RawEventSink};
use write_buffer::EncoderState;

// A writer. `last_t`, `time_high`, `time_low` and `y` are 0 where the flag `has_..` beside is.
#[repr(C)]
#[derive(Clone, Copy, Default)]
pub struct PropheseeSink {
    pub n_events: usize,
    pub last_t: i64,
    pub time_high: u64,
    pub time_low: u64,
    pub y: u64,
    pub encoding: u32,
    pub header_written: u8,
    pub has_last_t: u8,
    pub has_time_high: u8,
    pub has_time_low: u8,
    pub has_y: u8,
}

// `refusal` 0: `written` bytes were written. Else the table's number, `told` being the count that an
// 11 tells, and the sink is as it was.
#[repr(C)]
#[derive(Clone, Copy)]
pub struct PropheseeAppended {
    pub sink: PropheseeSink,
    pub told: usize,
    pub written: usize,
    pub refusal: u32,
}

// Whether some value is held by a flag and the number beside it, `zero` telling that this is 0.
fn is_held(has: u8, zero: bool) -> bool
    ensures { result ≡ cond (eqb has 0) zero (eqb has 1) }
{
    if has == 0 { zero } else { has == 1 }
}

// Whether some writer has these numbers.
pub fn is_sink(flat: PropheseeSink) -> bool
    ensures { result ≡ is_sink flat }
{
    is_known(flat.encoding)
        && flat.header_written < 2
        && is_held(flat.has_last_t, flat.last_t == 0)
        && is_held(flat.has_time_high, flat.time_high == 0)
        && is_held(flat.has_time_low, flat.time_low == 0)
        && is_held(flat.has_y, flat.y == 0)
}

// The writer that has these numbers; 10 where none has.
impl TryFrom<PropheseeSink> for RawEventSink {
    type Error = Refusal;

    ghost try_from_gives = { λ f r. r ≡ cond (is_sink f) (Ok (sink_of f)) (Err StateOutOfRange) };

    fn try_from(flat: PropheseeSink) -> Result<RawEventSink, Refusal> {
        if !is_sink(flat) {
            return Err(Refusal::StateOutOfRange);
        }
        let state = EncoderState {
            time_high: (flat.has_time_high != 0).then_some(flat.time_high),
            time_low: (flat.has_time_low != 0).then_some(flat.time_low),
            y: (flat.has_y != 0).then_some(flat.y),
        };
        Ok(RawEventSink {
            version: encoding_of(flat.encoding),
            header_written: flat.header_written != 0,
            n_events: flat.n_events,
            last_t: (flat.has_last_t != 0).then_some(flat.last_t),
            state,
        })
    }
}

impl From<RawEventSink> for PropheseeSink {
    ghost from_gives = { λ s f. f ≡ flat_sink s };

    fn from(s: RawEventSink) -> PropheseeSink {
        let last = s.last_t;
        let high = s.state.time_high;
        let low = s.state.time_low;
        let row = s.state.y;
        PropheseeSink {
            n_events: s.n_events,
            last_t: last.unwrap_or(0),
            time_high: high.unwrap_or(0),
            time_low: low.unwrap_or(0),
            y: row.unwrap_or(0),
            encoding: u32::from(s.version),
            header_written: u8::from(s.header_written),
            has_last_t: u8::from(last.is_some()),
            has_time_high: u8::from(high.is_some()),
            has_time_low: u8::from(low.is_some()),
            has_y: u8::from(row.is_some()),
        }
    }
}

// A fresh writer; `header` isn't 0: it sends a header before its first words.
pub fn writer_of(encoding: u32, header: u8) -> PropheseeSink
    ensures { result ≡ writer_of encoding header }
{
    PropheseeSink {
        encoding,
        header_written: u8::from(header == 0),
        ..PropheseeSink::default()
    }
}

// A refused append: the sink is as it was, whatever the library's is.
pub fn refused_of(flat: PropheseeSink, refusal: Refusal) -> PropheseeAppended
    ensures { (next : RawEventSink) → result ≡ appended_of flat (told_append (Err refusal)) next }
{
    PropheseeAppended {
        sink: flat,
        told: count_of(refusal),
        written: 0,
        refusal: u32::from(refusal),
    }
}

pub fn appended_of(flat: PropheseeSink, a: Appended) -> PropheseeAppended
    ensures { result ≡ appended_of flat (told_append a.answer) a.sink }
{
    match a.answer {
        Ok(n) => PropheseeAppended {
            sink: PropheseeSink::from(a.sink),
            told: 0,
            written: n,
            refusal: 0,
        },
        Err(r) => refused_of(flat, r),
    }
}
