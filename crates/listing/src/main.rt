// Lists a recording from standard input: its first line by `listing_text::begin`, then the events'
// lines. listing_lines/specs/Listing.antt has the text; reading and writing are all that is added.

#![tactic(auto)]

ghost use Rattle.std.specs.Prelude.{◌≤◌, length};
ghost use Rattle.listing_text.specs.Laws.{Rows};

use std::io;
use std::io::Write;
use test_text::{read_full, room};

fn lines(
    stdout: &mut impl Write,
    xs: &[u16],
    ys: &[u16],
    ts: &[i64],
    ps: &[u8],
    count: usize,
    out: &mut [u8],
) -> io::Result<()>
    requires rows { Rows xs.now ys.now ts.now ps.now 0 count }
    requires in_bounds { 65536 ≤ length out.old }
{
    // 512 lines at a time have at most 43,008 bytes.
    for from in (0..count).step_by(512) {
        let n = (count - from).min(512);
        let end = listing_text::lines_text(xs, ys, ts, ps, from, n, &mut *out);
        stdout.write_all(&out[..end])?;
    }
    Ok(())
}

fn main(rt: HostRuntime) -> io::Result<()> {
    // One byte more than is read, so that a longer recording shows.
    let mut recording: [u8; 65537] = room(0);
    let mut xs: [u16; 393216] = room(0);
    let mut ys: [u16; 393216] = room(0);
    let mut ts: [i64; 393216] = room(0);
    let mut ps: [u8; 393216] = room(0);
    let mut out: [u8; 65536] = room(0);
    let n = read_full(&mut rt.reader(), &mut recording)?;
    let begun = listing_text::begin(
        &recording[..n],
        &mut xs,
        &mut ys,
        &mut ts,
        &mut ps,
        &mut out,
    );
    let mut stdout = io::writer(&rt);
    stdout.write_all(&out[..begun.written])?;
    lines(&mut stdout, &xs, &ys, &ts, &ps, begun.count, &mut out)
}
