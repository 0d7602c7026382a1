// Slices by number and by time, over lent records.
ghost use Rattle.c_index.specs.{Slicing.SlicesIndexC, Slicing.SlicesTimeC};

use c_index::opening::PropheseeSource;
use c_index::slices::{PropheseeSlice, lent_records};
use index_build::RawSliceSource;

// The events from number i0 to before i1, the ends clamped to the total.
#[unsafe(no_mangle)]
pub extern "C" fn prophesee_slice_index(
    recording: &[u8],
    source: PropheseeSource,
    records: &[[u64; 10]],
    i0: usize,
    i1: usize,
    xs: &mut [u16],
    ys: &mut [u16],
    ts: &mut [i64],
    ps: &mut [u8],
) -> PropheseeSlice
    ensures { SlicesIndexC recording.now source records.now i0 i1 result
        xs.old ys.old ts.old ps.old
        xs.new ys.new ts.new ps.new }
{
    let s = RawSliceSource::from(source);
    let asked = slice_rules::by_number(s, i0, i1);
    let lent = lent_records(source, records);
    let answer = slice::slice_asked(recording, s, &lent, asked, xs, ys, ts, ps);
    PropheseeSlice::from(answer)
}

// The events with t0 <= t < t1.
#[unsafe(no_mangle)]
pub extern "C" fn prophesee_slice_time(
    recording: &[u8],
    source: PropheseeSource,
    records: &[[u64; 10]],
    t0: i64,
    t1: i64,
    xs: &mut [u16],
    ys: &mut [u16],
    ts: &mut [i64],
    ps: &mut [u8],
) -> PropheseeSlice
    ensures { SlicesTimeC recording.now source records.now t0 t1 result
        xs.old ys.old ts.old ps.old
        xs.new ys.new ts.new ps.new }
{
    let s = RawSliceSource::from(source);
    let asked = slice_rules::by_time(s, t0, t1);
    let lent = lent_records(source, records);
    let answer = slice::slice_asked(recording, s, &lent, asked, xs, ys, ts, ps);
    PropheseeSlice::from(answer)
}
