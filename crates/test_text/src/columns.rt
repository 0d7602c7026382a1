// Four columns to lend, filled with a mark, so that a store to any entry shows.
ghost use Rattle.std.specs.Prelude.{◌≡◌, ◌≤◌, length};

use crate::{room, show, text};
use evt_types::RawEvent;
use std::io;
use std::io::Write;

pub const MARK: RawEvent = RawEvent {
    x: 43981,
    y: 43981,
    t: 7777777777777777,
    p: 171,
};

// A column of one mark. The `ensures` keeps the array itself out of its callers' proofs.
pub fn marked<T: Copy>(mark: T) -> [T; 4096]
    ensures { 4096 ≡ length result }
{
    room(mark)
}

// How many entries of column k, which has `most`, are lent, by a text `R` for all columns or
// `X,Y,T,P`.
pub fn lent(s: &[u8], k: usize, most: usize) -> usize
    ensures { result ≤ most }
{
    let n = if s.contains(&b',') {
        text::number(text::field(s, b',', k))
    } else {
        text::number(s)
    };
    most.min(n as usize)
}

// How many numbers column k has, of columns that a text gives as `XS:YS:TS:PS`: numbers with commas
// between them.
pub fn count(s: &[u8], k: usize) -> usize {
    text::field(s, b':', k)
        .split(|&b| b == b',')
        .take_while(|one| !one.is_empty())
        .count()
}

// The numbers of column k go to its front, with that of an empty text behind them up to n.
fn fill<T: Copy, F: Fn(&[u8]) -> T>(into: &mut [T], s: &[u8], k: usize, n: usize, read: F)
    requires { F.IsAlwaysCallable read }
{
    let numbers = text::field(s, b':', k);
    for (i, entry) in into.iter_mut().take(n).enumerate() {
        *entry = read(text::field(numbers, b',', i));
    }
}

// The columns that a text gives go to the front of the lent ones, with zeros behind the shorter ones.
pub fn read(s: &[u8], xs: &mut [u16], ys: &mut [u16], ts: &mut [i64], ps: &mut [u8]) {
    let n = count(s, 0)
        .max(count(s, 1))
        .max(count(s, 2))
        .max(count(s, 3));
    fill(xs, s, 0, n, |one| text::short(text::number(one)));
    fill(ys, s, 1, n, |one| text::short(text::number(one)));
    fill(ts, s, 2, n, |one| text::signed(one));
    fill(ps, s, 3, n, |one| (text::number(one) % 256) as u8);
}

// Entry i of the columns; a marked one behind their end.
fn entry(xs: &[u16], ys: &[u16], ts: &[i64], ps: &[u8], i: usize) -> RawEvent {
    match (xs.get(i), ys.get(i), ts.get(i), ps.get(i)) {
        (Some(&x), Some(&y), Some(&t), Some(&p)) => RawEvent { x, y, t, p },
        _ => MARK,
    }
}

// The first n events.
pub fn show_events(
    stdout: &mut impl Write,
    xs: &[u16],
    ys: &[u16],
    ts: &[i64],
    ps: &[u8],
    n: usize,
) -> io::Result<()> {
    for i in 0..n {
        write!(stdout, " ")?;
        show::event(stdout, entry(xs, ys, ts, ps, i))?;
    }
    Ok(())
}

// The first n events, and ` dirty` if an entry behind them hasn't its mark any more.
pub fn show_all(
    stdout: &mut impl Write,
    xs: &[u16],
    ys: &[u16],
    ts: &[i64],
    ps: &[u8],
    n: usize,
) -> io::Result<()> {
    show_events(stdout, xs, ys, ts, ps, n)?;
    if (n..xs.len()).any(|i| entry(xs, ys, ts, ps, i) != MARK) {
        write!(stdout, " dirty")?;
    }
    Ok(())
}

// The same for bytes alone, of which the first n have been shown.
pub fn show_dirty_bytes(stdout: &mut impl Write, s: &[u8], n: usize) -> io::Result<()> {
    if s.iter().skip(n).any(|&b| b != MARK.p) {
        write!(stdout, " dirty")?;
    }
    Ok(())
}
