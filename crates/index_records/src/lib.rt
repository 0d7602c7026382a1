// The records of an index: whether they are in range (rule 10), and the one that a slice starts at.
// specs/InRange.antt has when an index is in range; specs/Due.antt what the record behind another one
// must be like, and the judging of one after another, which comes to it (proofs/Judged.antt).
// specs/Choose.antt has which record is looked for, specs/BinarySearch.antt the binary search, which
// finds it (specs/Search.antt).

#![tactic(auto)]

ghost use Rattle.std.specs.Prelude.{◌≡◌, ◌<◌, List, length};
ghost use Rattle.evt_codec.specs.Codec.{encoding_of};
ghost use Rattle.index_build.specs.{declared.Checkpoint.Checkpoint, Nth.nth};
ghost use Rattle.index_records.specs.Choose.{passes_of};
ghost use Rattle.index_records.specs.BinarySearch.{chosen_of};
ghost use Rattle.index_records.specs.InRange.{index_in_range};
ghost use Rattle.index_records.specs.Due.{Admits, admits_of, due_first, due_behind, judged_records};

use evt_codec::Codec;
use evt_types::Encoding;
use index_build::{Checkpoint, RawSliceSource};

// The records of an index, however they are held.
pub trait Records {
    ghost listed: { Self → List Checkpoint };

    fn count(&self) -> usize
        ensures { result ≡ length (listed self.now) };

    fn record(&self, i: usize) -> Checkpoint
        requires { i < length (listed self.now) }
        ensures { result ≡ nth (listed self.now) i };
}

// Those that are judged, each kind by `are_in_range`: in one loop, or in one for each encoding.
pub trait Judge: Records {
    fn in_range(&self, source: RawSliceSource) -> bool
        ensures { result ≡ index_in_range source (Self.listed self.now) };
}

impl<'a> Records for &'a [Checkpoint] {
    ghost listed = { λ records. records.now };

    fn count(&self) -> usize {
        self.len()
    }

    fn record(&self, i: usize) -> Checkpoint {
        self[i]
    }
}

impl<'a> Judge for &'a [Checkpoint] {
    fn in_range(&self, source: RawSliceSource) -> bool {
        are_in_range(self, source)
    }
}

// What a slice asks of the record it starts at: a count at most this number, or a time below this one.
#[derive(Clone, Copy, Debug, PartialEq, Eq)]
pub enum Choice {
    ByNumber(usize),
    ByTime(i64),
}

impl Choice {
    fn passes(self, c: Checkpoint) -> bool
        ensures { result ≡ passes_of self c }
    {
        match self {
            Choice::ByNumber(number) => c.event_index <= number,
            Choice::ByTime(time) => c.time < time,
        }
    }
}

// The last record that passes, or else the first, by binary search. Without a record: a blank one.
// The slice method `partition_point` would promise it of sorted records only, and reads no lent ones.
pub fn choose<R: Records>(records: &R, asked: Choice) -> Checkpoint
    ensures { result ≡ chosen_of asked (R.listed records.now) }
{
    let n = records.count();
    if n == 0 {
        return Checkpoint::blank();
    }
    let mut lo: usize = 0;
    let mut hi = n;
    while lo < hi {
        let middle = lo + (hi - lo) / 2;
        if asked.passes(records.record(middle)) {
            lo = middle + 1;
        } else {
            hi = middle;
        }
    }
    records.record(lo.saturating_sub(1))
}

// What the next record must be like: where it stands, which is nowhere past 2^64, and the least
// count and time.
#[derive(Clone, Copy)]
struct Due {
    offset: Option<usize>,
    count: usize,
    time: i64,
}

const MOST_EVENTS: usize = 8589934592;

impl Due {
    fn first(source: RawSliceSource) -> Due
        ensures { result ≡ due_first source }
    {
        Due {
            offset: Some(source.data_offset),
            count: 0,
            time: 0,
        }
    }

    fn behind(source: RawSliceSource, c: Checkpoint) -> Due
        ensures { result ≡ due_behind source c }
    {
        Due {
            offset: c.byte_offset.checked_add(source.spacing),
            count: c.event_index,
            time: c.time,
        }
    }

    // Whether a record is what the next one must be like. The decoder comes last: it is a call, across which the other tests' numbers would be kept.
    fn admits(self, source: RawSliceSource, c: Checkpoint) -> bool
        ensures tested { result ≡ admits_of source self c }
        ensures ruled { Admits source self c result }
    {
        Some(c.byte_offset) == self.offset
            && encoding_of(c.codec) == source.encoding
            && self.count <= c.event_index
            && c.event_index <= MOST_EVENTS
            && c.event_index <= source.n_events
            && self.time <= c.time
            && c.codec.in_range()
    }
}

fn encoding_of(codec: Codec) -> Encoding
    ensures { result ≡ encoding_of codec }
{
    match codec {
        Codec::Evt2(_) => Encoding::Evt2,
        Codec::Evt21(_) => Encoding::Evt21,
        Codec::Evt3(_) => Encoding::Evt3,
    }
}

// Whether the records are in range, read up to the first that isn't. Inlined, so that where the encoding
// is known the decoder isn't kept as a union in memory.
#[inline(always)]
pub fn are_in_range<R: Records>(records: &R, source: RawSliceSource) -> bool
    ensures judged { result ≡ judged_records source (R.listed records.now) }
    ensures in_range { result ≡ index_in_range source (R.listed records.now) }
{
    let n = records.count();
    let mut due = Due::first(source);
    for i in 0..n {
        let c = records.record(i);
        if !due.admits(source, c) {
            return false;
        }
        due = Due::behind(source, c);
    }
    0 < n
}
