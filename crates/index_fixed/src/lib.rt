// An index whose records are held by value, in an array: whoever opens and slices by these functions
// lends no record. The contracts cite the definitions of index and slice. `open_into`,
// `open_words_into`, `slice_index_in` and `slice_time_in` lend the first records of an array.

#![tactic(auto)]

ghost use Rattle.std.specs.Prelude.{◌≡◌, ◌≤◌, min, replicate, take};
ghost use Rattle.index_build.specs.Index.{Opens, open_raw_outcome, open_words_outcome};
ghost use Rattle.index_build.specs.Nth.{blank as blank_record};
ghost use Rattle.slice_rules.specs.Slice.{SlicesIndex, SlicesTime};

use evt_types::Refusal;
use index_build::{Checkpoint, OpenOptions, Opening, RawSliceSource, WordsOptions};

// How an opening was answered, and the records: an array with a count, as a fixed memory without a heap needs.
#[derive(Clone, Copy)]
pub struct FixedIndex {
    pub answer: Result<Opening, Refusal>,
    pub records: [Checkpoint; 64],
}

// Opens into the first `n` of the records; the others stay.
pub fn open_into(
    recording: &[u8],
    options: OpenOptions,
    records: [Checkpoint; 64],
    n: usize,
) -> FixedIndex
    requires { n ≤ 64 }
    ensures { Opens (open_raw_outcome recording.now options n) result.answer records result.records }
{
    let mut made = records;
    let answer = index_open::open(recording, &mut made[..n], options);
    FixedIndex {
        answer,
        records: made,
    }
}

// The same for headerless words.
pub fn open_words_into(
    words: &[u8],
    options: WordsOptions,
    records: [Checkpoint; 64],
    n: usize,
) -> FixedIndex
    requires { n ≤ 64 }
    ensures { Opens (open_words_outcome words.now options n) result.answer records result.records }
{
    let mut made = records;
    let answer = index_open::open_words(words, &mut made[..n], options);
    FixedIndex {
        answer,
        records: made,
    }
}

// Opens with room for `room` records, at most 64.
pub fn open(recording: &[u8], options: OpenOptions, room: usize) -> FixedIndex
    ensures { Opens (open_raw_outcome recording.now options (min room 64)) result.answer (replicate 64 blank_record) result.records }
{
    open_into(recording, options, [Checkpoint::blank(); 64], room.min(64))
}

// The same for headerless words.
pub fn open_words(words: &[u8], options: WordsOptions, room: usize) -> FixedIndex
    ensures { Opens (open_words_outcome words.now options (min room 64)) result.answer (replicate 64 blank_record) result.records }
{
    open_words_into(words, options, [Checkpoint::blank(); 64], room.min(64))
}

// Slices by number over the first `n` of the records.
pub fn slice_index_in(
    recording: &[u8],
    source: RawSliceSource,
    records: [Checkpoint; 64],
    n: usize,
    i0: usize,
    i1: usize,
    xs: &mut [u16],
    ys: &mut [u16],
    ts: &mut [i64],
    ps: &mut [u8],
) -> Result<usize, Refusal>
    requires { n ≤ 64 }
    ensures { SlicesIndex recording.now source (take n records) i0 i1 result
        xs.old ys.old ts.old ps.old
        xs.new ys.new ts.new ps.new }
{
    slice::slice_index(recording, source, &records[..n], i0, i1, xs, ys, ts, ps)
}

// Slices by time over the first `n` of the records.
pub fn slice_time_in(
    recording: &[u8],
    source: RawSliceSource,
    records: [Checkpoint; 64],
    n: usize,
    t0: i64,
    t1: i64,
    xs: &mut [u16],
    ys: &mut [u16],
    ts: &mut [i64],
    ps: &mut [u8],
) -> Result<usize, Refusal>
    requires { n ≤ 64 }
    ensures { SlicesTime recording.now source (take n records) t0 t1 result
        xs.old ys.old ts.old ps.old
        xs.new ys.new ts.new ps.new }
{
    slice::slice_time(recording, source, &records[..n], t0, t1, xs, ys, ts, ps)
}

// Slices by number over the first `n` records, or all if there are no `n`.
pub fn slice_index(
    recording: &[u8],
    source: RawSliceSource,
    records: [Checkpoint; 64],
    n: usize,
    i0: usize,
    i1: usize,
    xs: &mut [u16],
    ys: &mut [u16],
    ts: &mut [i64],
    ps: &mut [u8],
) -> Result<usize, Refusal>
    ensures { SlicesIndex recording.now source (take n records) i0 i1 result
        xs.old ys.old ts.old ps.old
        xs.new ys.new ts.new ps.new }
{
    slice_index_in(
        recording,
        source,
        records,
        n.min(64),
        i0,
        i1,
        xs,
        ys,
        ts,
        ps,
    )
}

// Slices by time over the first `n` records, or all if there are no `n`.
pub fn slice_time(
    recording: &[u8],
    source: RawSliceSource,
    records: [Checkpoint; 64],
    n: usize,
    t0: i64,
    t1: i64,
    xs: &mut [u16],
    ys: &mut [u16],
    ts: &mut [i64],
    ps: &mut [u8],
) -> Result<usize, Refusal>
    ensures { SlicesTime recording.now source (take n records) t0 t1 result
        xs.old ys.old ts.old ps.old
        xs.new ys.new ts.new ps.new }
{
    slice_time_in(
        recording,
        source,
        records,
        n.min(64),
        t0,
        t1,
        xs,
        ys,
        ts,
        ps,
    )
}
