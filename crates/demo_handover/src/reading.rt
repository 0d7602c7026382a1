// Bytes read back, into columns of 16: decoded whole, or a slice by an index of them. Words alone are
// read with a size of 2,048 by 2,048; behind a header none is given, and the header's holds. What is
// read is held to the given events from number `from` on, up to `to`.
ghost use Rattle.std.specs.Prelude.{◌≤◌, length};

use crate::compare;
use crate::compare::{Difference, Got};
use crate::given::{Case, When};
use evt_types::Refusal;
use prophesee_raw::fixed::FixedIndex;
use prophesee_raw::{
    Checkpoint, LoadOptions, OpenOptions, Opening, SensorSize, WordsOptions, fixed,
};
use read_rules::Reading;

// Where the body starts.
pub fn body_start(case: Case, bytes: &[u8]) -> usize
    ensures { result ≤ length bytes.now }
{
    if !case.headed {
        return 0;
    }
    let header = prophesee_raw::parse_header(bytes, None);
    header.map_or(0, |h| h.data_offset).min(bytes.len())
}

// Into the columns lent.
pub fn read(
    case: Case,
    bytes: &[u8],
    xs: &mut [u16],
    ys: &mut [u16],
    ts: &mut [i64],
    ps: &mut [u8],
) -> Result<Reading, Refusal> {
    if case.headed {
        let options = LoadOptions {
            sensor_size: None,
            max_events: None,
        };
        return prophesee_raw::read_raw(bytes, options, &mut *xs, &mut *ys, &mut *ts, &mut *ps);
    }
    prophesee_raw::decode_words(
        bytes,
        case.encoding,
        Some(SensorSize {
            width: 2048,
            height: 2048,
        }),
        None,
        &mut *xs,
        &mut *ys,
        &mut *ts,
        &mut *ps,
    )
}

// What a call hands over into columns of 16, judged.
fn judged<F: FnOnce(&mut [u16], &mut [u16], &mut [i64], &mut [u8]) -> Result<usize, Refusal>>(
    when: When,
    from: usize,
    to: usize,
    call: F,
) -> Result<(), Difference>
    requires bounds { (from ≤ to) × (to ≤ 16) }
    requires callable { F.IsAlwaysCallable call }
{
    let mut xs = [0; 16];
    let mut ys = [0; 16];
    let mut ts = [0; 16];
    let mut ps = [0; 16];
    let count = call(&mut xs, &mut ys, &mut ts, &mut ps);
    let got = Got {
        count,
        xs,
        ys,
        ts,
        ps,
    };
    compare::judge(when, got, from, to)
}

pub fn decode(case: Case, bytes: &[u8], to: usize) -> Result<(), Difference>
    requires { to ≤ 16 }
{
    judged(case.when, 0, to, |xs, ys, ts, ps| {
        read(case, bytes, xs, ys, ts, ps).map(|r| r.count)
    })
}

pub fn open(case: Case, bytes: &[u8], spacing: usize) -> FixedIndex {
    if case.headed {
        let options = OpenOptions {
            sensor_size: None,
            spacing,
        };
        return fixed::open(bytes, options, 64);
    }
    let words = WordsOptions {
        encoding: case.encoding,
        sensor_size: Some(SensorSize {
            width: 2048,
            height: 2048,
        }),
        spacing,
    };
    fixed::open_words(bytes, words, 64)
}

pub fn by_number(
    when: When,
    bytes: &[u8],
    opened: Opening,
    records: [Checkpoint; 64],
    i0: usize,
    i1: usize,
    to: usize,
) -> Result<(), Difference>
    requires { (i0 ≤ to) × (to ≤ 16) }
{
    let source = opened.source;
    let n = opened.records;
    judged(when, i0, to, |xs, ys, ts, ps| {
        fixed::slice_index(bytes, source, records, n, i0, i1, xs, ys, ts, ps)
    })
}

pub fn by_time(
    when: When,
    bytes: &[u8],
    opened: Opening,
    records: [Checkpoint; 64],
    t0: i64,
    t1: i64,
    from: usize,
    to: usize,
) -> Result<(), Difference>
    requires { (from ≤ to) × (to ≤ 16) }
{
    let source = opened.source;
    let n = opened.records;
    judged(when, from, to, |xs, ys, ts, ps| {
        fixed::slice_time(bytes, source, records, n, t0, t1, xs, ys, ts, ps)
    })
}
