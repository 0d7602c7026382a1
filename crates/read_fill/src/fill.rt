// Filling four columns: one loop for every encoding.
ghost use Rattle.std.specs.Prelude.{◌≡◌, ◌+◌, ◌/◌, ◌<◌, ◌^◌, length};
ghost use Rattle.evt_types.specs.Columns.{Wrote};
ghost use Rattle.read_columns.specs.Inside.{inside_of};
ghost use Rattle.evt_types.specs.Columns.{Room};
ghost use Rattle.read_fill.specs.Iteration.{Fits};
ghost use Rattle.read_fill.specs.Decode.{inside_words, filled_words};

use crate::FilledAll;
use evt_codec::WordLoop;
use evt_codec::word_loop::{Evt2Loop, Evt21Loop};
use evt_types::vector::Vector;
use evt3_decoder::WideDecoder;

// A decoder whose events go to columns, in the way that measured fastest for its encoding.
pub trait Fill: WordLoop {
    fn put(
        v: Vector,
        width: u64,
        height: u64,
        at: usize,
        xs: &mut [u16],
        ys: &mut [u16],
        ts: &mut [i64],
        ps: &mut [u8],
    ) -> usize
        requires room { Room (length (inside_of width height v)) v at (length xs.old) (length ys.old) (length ts.old) (length ps.old) }
        requires few { v.mask < 2 ^ Self.reader.most }
        ensures count { result ≡ at + length (inside_of width height v) }
        ensures wrote { Wrote (inside_of width height v) at xs.old ys.old ts.old ps.old
            xs.new ys.new ts.new ps.new };
}

impl Fill for Evt2Loop {
    fn put(
        v: Vector,
        width: u64,
        height: u64,
        at: usize,
        xs: &mut [u16],
        ys: &mut [u16],
        ts: &mut [i64],
        ps: &mut [u8],
    ) -> usize {
        read_columns::put1(v, width, height, at, &mut *xs, &mut *ys, &mut *ts, &mut *ps)
    }
}

impl Fill for Evt21Loop {
    fn put(
        v: Vector,
        width: u64,
        height: u64,
        at: usize,
        xs: &mut [u16],
        ys: &mut [u16],
        ts: &mut [i64],
        ps: &mut [u8],
    ) -> usize {
        read_columns::spread(v, width, height, at, &mut *xs, &mut *ys, &mut *ts, &mut *ps)
    }
}

impl Fill for WideDecoder {
    fn put(
        v: Vector,
        width: u64,
        height: u64,
        at: usize,
        xs: &mut [u16],
        ys: &mut [u16],
        ts: &mut [i64],
        ps: &mut [u8],
    ) -> usize {
        read_columns::place(v, width, height, at, &mut *xs, &mut *ys, &mut *ts, &mut *ps)
    }
}

pub fn words<D: Fill>(
    bytes: &[u8],
    start: D,
    width: u64,
    height: u64,
    xs: &mut [u16],
    ys: &mut [u16],
    ts: &mut [i64],
    ps: &mut [u8],
) -> FilledAll
    requires bounded { D.reader.Bounded (length bytes.now / D.reader.size) (D.state start) }
    requires fit { Fits (length (inside_words D.reader width height (D.state start) bytes.now))
        (length xs.old) (length ys.old) (length ts.old) (length ps.old) }
    ensures filled { result ≡ filled_words D.reader width height (D.state start) bytes.now }
    ensures wrote { Wrote (inside_words D.reader width height (D.state start) bytes.now) 0
        xs.old ys.old ts.old ps.old
        xs.new ys.new ts.new ps.new }
{
    let size = D::WORD_SIZE;
    let mut s = start;
    let mut n: usize = 0;
    let mut i: usize = 0;
    // The test is for a word's last byte, as `word_at` tests, whose own test then falls away.
    while i + (size - 1) < bytes.len() {
        let w = D::word_at(bytes, i);
        let (next, v) = s.advance(w);
        s = next;
        i += size;
        n = D::put(v, width, height, n, &mut *xs, &mut *ys, &mut *ts, &mut *ps);
    }
    FilledAll {
        count: n,
        codec: s.codec(),
    }
}
