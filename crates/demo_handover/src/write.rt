// Appending: what is given, and what a second writer resumes with.
ghost use Rattle.std.specs.Prelude.{◌≡◌, ◌++◌, ◌≤◌, length, drop, IfOk};

use crate::given::{Case, When};
use crate::{given, print};
use prophesee_raw::{RawEventSink, Resumed};
use std::io;
use std::io::Write;
use test_text::text;

// A writer, how many bytes of the output are written, and whether the answers are told.
#[derive(Clone, Copy)]
struct Progress {
    sink: RawEventSink,
    at: usize,
    told: bool,
}

// Room for a stream. The `ensures` keeps the array itself out of its callers' proofs.
pub fn room() -> [u8; 256]
    ensures { 256 ≡ length result }
{
    [0; 256]
}

// Appends behind what is written.
fn append(
    stdout: &mut impl Write,
    w: Progress,
    xs: &[u16],
    ys: &[u16],
    ts: &[i64],
    ps: &[u8],
    out: &mut [u8],
) -> io::Result<Progress>
    requires { w.at ≤ length out.old }
    ensures { IfOk result (λ w. w.at ≤ length out.old) }
{
    let appended = prophesee_raw::append(w.sink, 2048, 2048, xs, ys, ts, ps, &mut out[w.at..]);
    if w.told {
        print::append(stdout, xs.len(), appended.answer)?;
    }
    let n = appended.answer.unwrap_or(0);
    Ok(Progress {
        sink: appended.sink,
        at: w.at.saturating_add(n).min(out.len()),
        told: w.told,
    })
}

// Appends the given events from number `from` on, up to `to`.
fn append_given(
    stdout: &mut impl Write,
    w: Progress,
    when: When,
    from: usize,
    to: usize,
    out: &mut [u8],
) -> io::Result<Progress>
    requires { w.at ≤ length out.old }
    ensures { IfOk result (λ w. w.at ≤ length out.old) }
{
    let xs = given::columns();
    let ys = given::rows();
    let ts = given::times(when);
    let ps = given::polarities();
    append(
        stdout,
        w,
        text::part(&xs, from, to),
        text::part(&ys, from, to),
        text::part(&ts, from, to),
        text::part(&ps, from, to),
        &mut *out,
    )
}

// Two events whose times fall.
fn append_falling(stdout: &mut impl Write, w: Progress, out: &mut [u8]) -> io::Result<Progress>
    requires { w.at ≤ length out.old }
    ensures { IfOk result (λ w. w.at ≤ length out.old) }
{
    let xs = [1, 2];
    let ys = [7, 7];
    let ts = [4096, 4095];
    let ps = [0, 0];
    append(stdout, w, &xs, &ys, &ts, &ps, &mut *out)
}

// The appends that are given, by a fresh writer. Answers how long the stream is.
pub fn appends(stdout: &mut impl Write, case: Case, out: &mut [u8]) -> io::Result<usize>
    ensures { IfOk result (λ n. n ≤ length out.old) }
{
    let when = case.when;
    let writer = Progress {
        sink: RawEventSink::to_writer(case.encoding, case.headed),
        at: 0,
        told: true,
    };
    let first = append_given(stdout, writer, when, 0, 7, &mut *out)?;
    let second = append_falling(stdout, first, &mut *out)?;
    let third = append_given(stdout, second, when, 7, given::total(when), &mut *out)?;
    Ok(third.at)
}

// The writer behind what is left of a stream.
fn behind_left(case: Case, left: &[u8]) -> Resumed {
    if case.headed {
        return prophesee_raw::resume_raw(left);
    }
    prophesee_raw::resume_words(left, case.encoding)
}

// That writer goes on at `at` with the given events from number `from` on. Answers where it ends.
pub fn resume(
    stdout: &mut impl Write,
    case: Case,
    left: &[u8],
    from: usize,
    out: &mut [u8],
    at: usize,
) -> io::Result<usize>
    requires { at ≤ length out.old }
    ensures { IfOk result (λ n. n ≤ length out.old) }
{
    let when = case.when;
    let resumed = behind_left(case, left);
    print::resumed(stdout, resumed.answer)?;
    let writer = Progress {
        sink: resumed.sink,
        at,
        told: false,
    };
    let w = append_given(stdout, writer, when, from, given::total(when), &mut *out)?;
    Ok(w.at)
}

// Copies to the front of `to`.
pub fn copy(from: &[u8], to: &mut [u8])
    requires { length from.now ≤ length to.old }
    ensures { to.new ≡ from.now ++ drop (length from.now) to.old }
{
    to[..from.len()].copy_from_slice(from);
}
