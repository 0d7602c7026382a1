// Whether columns can be appended: rules 12, 6 and 7.
ghost use Rattle.std.specs.Prelude.{◌≡◌, false, ◌&&◌, ◌^◌, ◌≤◌, length};
ghost use Rattle.std.specs.Int.Signed.{lt_z};
ghost use Rattle.write_buffer.specs.Columns.{Sized};
ghost use Rattle.std.specs.Prelude.{None};
ghost use Rattle.write_rules.specs.Range.{time_in_range, every, at_most, falls, falls_after, same_lengths};
ghost use Rattle.write_rules.specs.Blocks.{places_in_range, looked_of};

use crate::range;
use evt_types::Refusal;

pub fn same_lengths(a: usize, b: usize, c: usize, d: usize) -> bool
    ensures { result ≡ same_lengths a b c d }
{
    b == a && c == a && d == a
}

// Whether a time is before the one before it, the first before `from`.
fn times_fall(from: i64, ts: &[i64]) -> bool
    requires { length ts.now ≤ 2 ^ 28 }
    ensures { result ≡ falls from ts.now }
{
    let mut last = from;
    for &t in ts {
        if t < last {
            return true;
        }
        last = t;
    }
    false
}

// Whether all are at most 2047: gathered by `|`, since that needs no branch. (One function over the
// type of this and the next would need a trait with `|`, `<=` and a law, in place of one line.)
fn all_at_most_2047(xs: &[u16]) -> bool
    requires { length xs.now ≤ 2 ^ 28 }
    ensures { result ≡ every (at_most 2047) xs.now }
{
    xs.iter().fold(0, |all, &x| all | x) <= 2047
}

fn all_at_most_1(ps: &[u8]) -> bool
    requires { length ps.now ≤ 2 ^ 28 }
    ensures { result ≡ every (at_most 1) ps.now }
{
    ps.iter().fold(0, |all, &p| all | p) <= 1
}

// Of times in order the first and the last tell.
fn times_in_range(ts: &[i64]) -> bool
    requires { falls_after None ts.now ≡ false }
    ensures { result ≡ every time_in_range ts.now }
{
    let n = ts.len();
    if 0 < n {
        range::time(ts[0]) && range::time(ts[n - 1])
    } else {
        true
    }
}

// Rule 7, where the places were looked at.
pub fn events_in_range(fine: bool, ts: &[i64]) -> bool
    requires { falls_after None ts.now ≡ false }
    ensures { result ≡ (fine && every time_in_range ts.now) }
{
    fine && times_in_range(ts)
}

// Whether columns, rows and polarities are in range.
fn places_in_range(xs: &[u16], ys: &[u16], ps: &[u8]) -> bool
    requires { (length xs.now ≤ 2 ^ 28) × (length ys.now ≤ 2 ^ 28) × (length ps.now ≤ 2 ^ 28) }
    ensures { result ≡ places_in_range xs.now ys.now ps.now }
{
    all_at_most_2047(xs) && all_at_most_2047(ys) && all_at_most_1(ps)
}

// 6 where a time is before the one before it, the first before `from`, and else whether all places are
// in range: 64 events at a time, all four columns of them. (Four `chunks(64)`, zipped, were no plainer:
// `(((x, y), t), p)`, and the last time of a block besides.)
fn look(from: i64, xs: &[u16], ys: &[u16], ts: &[i64], ps: &[u8]) -> Result<bool, Refusal>
    requires { Sized xs.now ys.now ts.now ps.now }
    ensures { result ≡ looked_of (falls from ts.now) (places_in_range xs.now ys.now ps.now) }
{
    let mut last = from;
    let mut ok = true;
    let mut i: usize = 0;
    while 64 < ts.len() - i {
        let to = i + 64;
        if times_fall(last, &ts[i..to]) {
            return Err(Refusal::TimeOrder);
        }
        ok &= places_in_range(&xs[i..to], &ys[i..to], &ps[i..to]);
        last = ts[to - 1];
        i = to;
    }
    let end = ts.len();
    if times_fall(last, &ts[i..end]) {
        return Err(Refusal::TimeOrder);
    }
    Ok(ok && places_in_range(&xs[i..end], &ys[i..end], &ps[i..end]))
}

// Rule 6, and of rule 7 whether the places are in range.
pub fn look_after(
    last: Option<i64>,
    xs: &[u16],
    ys: &[u16],
    ts: &[i64],
    ps: &[u8],
) -> Result<bool, Refusal>
    requires { Sized xs.now ys.now ts.now ps.now }
    ensures { result ≡ looked_of (falls_after last ts.now) (places_in_range xs.now ys.now ps.now) }
{
    match last {
        None => {
            if 0 < ts.len() {
                look(ts[0], xs, ys, ts, ps)
            } else {
                Ok(true)
            }
        }
        Some(t) => look(t, xs, ys, ts, ps),
    }
}
