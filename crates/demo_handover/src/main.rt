// Demand 3, run: a few appends to a fresh writer of each encoding, cut at every byte. The bytes
// before a cut are decoded, the writer that resumes behind them appends the events that are missing,
// and the joined stream is decoded; both are indexed at two spacings and sliced by number and by time.
// A line for each cut says how many events were whole before it, how long the joined stream is, and
// `exact`, or what differs. First that is done without a header. Then the first writer sends one: the
// cuts are those at and behind its end, the second writer sends none, and reading is told no size and
// finds it in the header. Then come later events behind a header, whose body begins with `%`, but not
// of EVT2.1: its time words, and so its streams, begin with a byte 0. A long show of EVT3 passes its
// loops. The last line reads a recording that lost its opening before. src/given.rt has the appends,
// and what each cut owes.

#![tactic(auto)]

ghost use Rattle.std.specs.Prelude.{◌≤◌, ◌<◌, length};

use crate::given::{Case, When};
use prophesee_raw::{Codec, Encoding};
use std::io;
use std::io::Write;

mod compare;
mod exact;
mod given;
mod opening;
mod print;
mod reading;
mod write;

fn word_size(encoding: Encoding) -> usize
    ensures { 0 < result }
{
    Codec::new(encoding).word_size()
}

// The stream, cut, and then joined with what the writer behind the cut makes of the events that are
// missing. Whole words are counted from the body's start.
fn check_cut(
    stdout: &mut impl Write,
    case: Case,
    stream: &[u8],
    start: usize,
    cut: usize,
) -> io::Result<bool>
    requires { (start ≤ cut) × (cut ≤ length stream.now) × (length stream.now ≤ 256) }
{
    let body = cut - start;
    let whole = given::whole_before(case.when, case.encoding, body);
    let kept = cut - body % word_size(case.encoding);
    let mut joined = write::room();
    write::copy(&stream[..kept], &mut joined);
    let left = &stream[..cut];
    let end = write::resume(stdout, case, left, whole, &mut joined, kept)?;
    write!(stdout, "cut {cut}: {whole} whole, joined {end} bytes,")?;
    let first = exact::reads(stdout, case, left, whole, " before the cut")?;
    let total = given::total(case.when);
    let second = exact::reads(stdout, case, &joined[..end], total, " joined")?;
    let exact = first && second;
    print::end(stdout, exact)?;
    Ok(exact)
}

fn check_cuts(stdout: &mut impl Write, case: Case, stream: &[u8], start: usize) -> io::Result<bool>
    requires { length stream.now ≤ 256 }
{
    let mut all = true;
    for cut in start..=stream.len() {
        let exact = check_cut(stdout, case, stream, start, cut)?;
        all = all && exact;
    }
    Ok(all)
}

fn show(stdout: &mut impl Write, case: Case) -> io::Result<()> {
    print::case(stdout, case)?;
    writeln!(stdout)?;
    let mut out = write::room();
    let n = write::appends(stdout, case, &mut out)?;
    let stream = &out[..n];
    let start = reading::body_start(case, stream);
    print::header(stdout, &stream[..start])?;
    print::stream(stdout, &stream[start..], word_size(case.encoding))?;
    let exact = check_cuts(stdout, case, stream, start)?;
    print::all(stdout, case, exact)
}

fn show_headed(stdout: &mut impl Write, encoding: Encoding, when: When) -> io::Result<()> {
    show(
        stdout,
        Case {
            encoding,
            headed: true,
            when,
        },
    )
}

// Without a header, and behind one.
fn show_both(stdout: &mut impl Write, encoding: Encoding, when: When) -> io::Result<()> {
    show(
        stdout,
        Case {
            encoding,
            headed: false,
            when,
        },
    )?;
    show_headed(stdout, encoding, when)
}

fn main(rt: HostRuntime) -> io::Result<()> {
    let mut stdout = io::writer(&rt);
    show_both(&mut stdout, Encoding::Evt2, When::Early)?;
    show_headed(&mut stdout, Encoding::Evt2, When::Later2)?;
    show_both(&mut stdout, Encoding::Evt21, When::Early)?;
    show_both(&mut stdout, Encoding::Evt3, When::Early)?;
    show_headed(&mut stdout, Encoding::Evt3, When::Later3)?;
    show_both(&mut stdout, Encoding::Evt3, When::Long)?;
    opening::tell(&mut stdout)
}
