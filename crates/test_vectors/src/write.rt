// `ID write SINK APPEND ..`: `write_append::append` for each, with the writer that the last one returned.
// APPEND is `WxH:ROOM:XS:YS:TS:PS`, ROOM the length of the output. Answers `ok` and for each append
// ` | HEX SINK`, `-` for no bytes, or ` | refused N SINK`, with the count that 11 tells; and ` dirty`
// behind it if a byte behind those handed over changed, or any one by a refused call.
use crate::writer;
use std::io;
use std::io::Write;
use test_text::columns::MARK;
use test_text::{columns, show, text};
use write_append::{Appended, RawEventSink};

fn show_answer(stdout: &mut impl Write, appended: Appended, out: &[u8]) -> io::Result<()> {
    write!(stdout, " | ")?;
    match appended.answer {
        Ok(n) => show::hex(stdout, text::part(out, 0, n))?,
        Err(why) => show::refusal(stdout, why)?,
    }
    write!(stdout, " ")?;
    writer::show(stdout, appended.sink)?;
    columns::show_dirty_bytes(stdout, out, appended.answer.unwrap_or(0))
}

// Lends the first bytes of the output, as many as the case says.
fn lend(
    sink: RawEventSink,
    append: &[u8],
    xs: &[u16],
    ys: &[u16],
    ts: &[i64],
    ps: &[u8],
    out: &mut [u8],
) -> Appended {
    let [width, height] = text::numbers::<2>(text::field(append, b':', 0));
    let n = columns::lent(text::field(append, b':', 1), 0, out.len());
    write_append::append(
        sink,
        width as usize,
        height as usize,
        xs,
        ys,
        ts,
        ps,
        &mut out[..n],
    )
}

// Answers the writer after it.
fn one(stdout: &mut impl Write, sink: RawEventSink, append: &[u8]) -> io::Result<RawEventSink> {
    let given = text::from_field(append, b':', 2);
    let mut xs = columns::marked(MARK.x);
    let mut ys = columns::marked(MARK.y);
    let mut ts = columns::marked(MARK.t);
    let mut ps = columns::marked(MARK.p);
    columns::read(given, &mut xs, &mut ys, &mut ts, &mut ps);
    let mut out = columns::marked(MARK.p);
    let appended = lend(
        sink,
        append,
        text::part(&xs, 0, columns::count(given, 0)),
        text::part(&ys, 0, columns::count(given, 1)),
        text::part(&ts, 0, columns::count(given, 2)),
        text::part(&ps, 0, columns::count(given, 3)),
        &mut out,
    );
    show_answer(stdout, appended, &out)?;
    Ok(appended.sink)
}

pub fn answer(stdout: &mut impl Write, case: &[u8]) -> io::Result<()> {
    write!(stdout, "ok")?;
    let mut sink = writer::read(text::field(case, b' ', 2));
    let appends = text::from_field(case, b' ', 3).split(|&b| b == b' ');
    for append in appends.take_while(|append| !append.is_empty()) {
        sink = one(stdout, sink, append)?;
    }
    Ok(())
}
