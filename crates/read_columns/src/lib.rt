// The events of one word: written to four columns, all of them or those inside a sensor
// of width x height. specs/Inside.antt says which these are.
//
// What they require is that the vector's numbers are as small as every step yields them, and that
// there is room for what is written: the loops above see to it.

#![tactic(auto)]

ghost use Rattle.std.specs.Prelude.{◌≡◌, cond, [], ◌+◌, ◌-◌, ◌≤◌, ◌<◌, ◌^◌, min, max, eqb, length, set};
ghost use Rattle.std.specs.Int.Bits.{bit_and};
ghost use Rattle.std.specs.Int.Count.{count_trailing_zeros};
ghost use Rattle.laws_stream.specs.Slice.{onto};
ghost use Rattle.evt_types.specs.Event.{events_of};
ghost use Rattle.evt_types.specs.Columns.{Fits, Room, Wrote};
ghost use Rattle.read_columns.specs.Inside.{inside_of, first_of, latest_of, column_bound, below, kept_bits};

use evt_types::fields::bits;
use evt_types::num::{inside, saturating_add};
use evt_types::vector::Vector;

// The column of the lowest set bit: x plus the bit's number, saturated at 65,535.
fn column(x: u64, mask: u64) -> u64
    ensures { result ≡ min (x + count_trailing_zeros 64 mask) 65535 }
{
    saturating_add(x, u64::trailing_zeros(mask) as u64)
}

// The bound of a column: the sensor's width, past all columns where that is more than 65,535.
pub fn column_bound(width: u64) -> u64
    ensures { result ≡ column_bound width }
{
    if width < 65536 { width } else { 65568 }
}

// The bits whose columns are below the bound.
fn bits_below(x: u64, mask: u64, bound: u64) -> u64
    requires { (x < 65536) × (mask < 2 ^ 32) }
    ensures { result ≡ below x mask bound }
{
    if x + 32 <= bound {
        mask
    } else {
        if x < bound {
            bits(mask, 0, bound - x)
        } else {
            0
        }
    }
}

// The bits of a mask from column x on in row y whose events lie inside.
pub fn clip(x: u64, y: u64, mask: u64, bound: u64, height: u64) -> u64
    requires { (x < 65536) × (mask < 2 ^ 32) }
    ensures { result ≡ kept_bits x y mask bound height }
{
    if y < height {
        bits_below(x, mask, bound)
    } else {
        0
    }
}

// The mask without its lowest bit.
fn clear_lowest(mask: u64) -> u64
    ensures { result ≡ bit_and mask (mask - 1) }
{
    if mask == 0 { 0 } else { mask & (mask - 1) }
}

// Writes all events of v from index `at` on, and answers the next index.
pub fn put_all(
    v: Vector,
    at: usize,
    xs: &mut [u16],
    ys: &mut [u16],
    ts: &mut [i64],
    ps: &mut [u8],
) -> usize
    requires { Room (length (events_of v)) v at (length xs.old) (length ys.old) (length ts.old) (length ps.old) }
    ensures count { result ≡ at + length (events_of v) }
    ensures wrote { Wrote (events_of v) at
        xs.old ys.old ts.old ps.old
        xs.new ys.new ts.new ps.new }
{
    let y = v.y as u16;
    let t = v.t as i64;
    let p = v.p as u8;
    let mut mask = v.mask;
    let mut n = at;
    while mask != 0 {
        let x = column(v.x, mask);
        xs[n] = x as u16;
        ys[n] = y;
        ts[n] = t;
        ps[n] = p;
        n += 1;
        mask = mask & (mask - 1);
    }
    n
}

// Writes the events of v inside the sensor from index `at` on, and answers the next index. A single
// event goes a shorter way. For EVT3 alone: with two callers it would stay a call.
pub fn place(
    v: Vector,
    width: u64,
    height: u64,
    at: usize,
    xs: &mut [u16],
    ys: &mut [u16],
    ts: &mut [i64],
    ps: &mut [u8],
) -> usize
    requires { Room (length (inside_of width height v)) v at (length xs.old) (length ys.old) (length ts.old) (length ps.old) }
    ensures count { result ≡ at + length (inside_of width height v) }
    ensures wrote { Wrote (inside_of width height v) at xs.old ys.old ts.old ps.old
        xs.new ys.new ts.new ps.new }
{
    if v.mask == 1 {
        put1(v, width, height, at, &mut *xs, &mut *ys, &mut *ts, &mut *ps)
    } else {
        put(v, width, height, at, &mut *xs, &mut *ys, &mut *ts, &mut *ps)
    }
}

// `place`, bit by bit: the lowest set bit goes first, and is then cleared.
fn put(
    v: Vector,
    width: u64,
    height: u64,
    at: usize,
    xs: &mut [u16],
    ys: &mut [u16],
    ts: &mut [i64],
    ps: &mut [u8],
) -> usize
    requires { Room (length (inside_of width height v)) v at (length xs.old) (length ys.old) (length ts.old) (length ps.old) }
    ensures count { result ≡ at + length (inside_of width height v) }
    ensures wrote { Wrote (inside_of width height v) at xs.old ys.old ts.old ps.old
        xs.new ys.new ts.new ps.new }
{
    let y = v.y as u16;
    let t = v.t as i64;
    let p = v.p as u8;
    let mut mask = v.mask;
    let mut n = at;
    while mask != 0 {
        let rest = mask & (mask - 1);
        let x = column(v.x, mask);
        if inside(x, v.y, width, height) {
            xs[n] = x as u16;
            ys[n] = y;
            ts[n] = t;
            ps[n] = p;
            n += 1;
        }
        mask = rest;
    }
    n
}

// `place` for EVT2.1, whose masks are long: clipped once, then two events a turn. The last turn has no branch
// between one event and two, which no processor would foresee: one alone is written twice.
pub fn spread(
    v: Vector,
    width: u64,
    height: u64,
    at: usize,
    xs: &mut [u16],
    ys: &mut [u16],
    ts: &mut [i64],
    ps: &mut [u8],
) -> usize
    requires { Room (length (inside_of width height v)) v at (length xs.old) (length ys.old) (length ts.old) (length ps.old) }
    ensures count { result ≡ at + length (inside_of width height v) }
    ensures wrote { Wrote (inside_of width height v) at xs.old ys.old ts.old ps.old
        xs.new ys.new ts.new ps.new }
{
    let y = v.y as u16;
    let t = v.t as i64;
    let p = v.p as u8;
    let bound = column_bound(width);
    let mut mask = clip(v.x, v.y, v.mask, bound, height);
    if mask == 0 {
        return at;
    }
    let mut rest = clear_lowest(mask);
    let mut more = clear_lowest(rest);
    let mut n = at;
    while more != 0 {
        let a = column(v.x, mask) as u16;
        let b = column(v.x, rest) as u16;
        let m = n + 1;
        n = put_two(a, b, y, t, p, n, m, &mut *xs, &mut *ys, &mut *ts, &mut *ps);
        mask = more;
        rest = clear_lowest(mask);
        more = clear_lowest(rest);
    }
    let last = last_of(mask, rest);
    let m = last_at(n, rest);
    let a = column(v.x, mask) as u16;
    let b = column(v.x, last) as u16;
    put_two(a, b, y, t, p, n, m, &mut *xs, &mut *ys, &mut *ts, &mut *ps)
}

// Of a mask with one bit or two, where `rest` is without the lowest: the mask of the last bit, and the index
// of its event where the first has index n.
fn last_of(mask: u64, rest: u64) -> u64
    ensures { result ≡ cond (eqb rest 0) mask rest }
{
    if rest == 0 { mask } else { rest }
}

fn last_at(n: usize, rest: u64) -> usize
    requires { n + 1 < 2 ^ 64 }
    ensures { result ≡ n + cond (eqb rest 0) 0 1 }
{
    if rest == 0 { n } else { n + 1 }
}

// Writes two events, of columns a and b, to the indexes n and m, and answers the next.
fn put_two(
    a: u16,
    b: u16,
    y: u16,
    t: i64,
    p: u8,
    n: usize,
    m: usize,
    xs: &mut [u16],
    ys: &mut [u16],
    ts: &mut [i64],
    ps: &mut [u8],
) -> usize
    requires fit { Fits (m + 1) (length xs.old) (length ys.old) (length ts.old) (length ps.old) }
    requires order { n ≤ m }
    ensures { (result ≡ m + 1) × (xs.new ≡ set (set xs.old n a) m b)
        × (ys.new ≡ set (set ys.old n y) m y)
        × (ts.new ≡ set (set ts.old n t) m t)
        × (ps.new ≡ set (set ps.old n p) m p) }
{
    xs[n] = a;
    xs[m] = b;
    ys[n] = y;
    ys[m] = y;
    ts[n] = t;
    ts[m] = t;
    ps[n] = p;
    ps[m] = p;
    m + 1
}

// `place` where at most the lowest bit is set, as in EVT2.
pub fn put1(
    v: Vector,
    width: u64,
    height: u64,
    at: usize,
    xs: &mut [u16],
    ys: &mut [u16],
    ts: &mut [i64],
    ps: &mut [u8],
) -> usize
    requires room { Room (length (inside_of width height v)) v at (length xs.old) (length ys.old) (length ts.old) (length ps.old) }
    requires single { v.mask ≤ 1 }
    ensures count { result ≡ at + length (inside_of width height v) }
    ensures wrote { Wrote (inside_of width height v) at xs.old ys.old ts.old ps.old
        xs.new ys.new ts.new ps.new }
{
    if sees(v, width, height) {
        xs[at] = v.x as u16;
        ys[at] = v.y as u16;
        let t = v.t as i64;
        ts[at] = t;
        ps[at] = v.p as u8;
        at + 1
    } else {
        at
    }
}

// Whether a vector with at most the lowest bit has an event inside.
fn sees(v: Vector, width: u64, height: u64) -> bool
    requires { (v.mask ≤ 1) × (v.x < 65536) }
    ensures { inside_of width height v ≡ onto result (first_of v) [] }
{
    if v.mask == 0 {
        false
    } else {
        inside(v.x, v.y, width, height)
    }
}

// The maximum time, after n events at time t.
pub fn later(top: u64, n: usize, t: u64) -> u64
    ensures { result ≡ max top (latest_of n t) }
{
    if n == 0 {
        top
    } else {
        if top < t { t } else { top }
    }
}
