// `ID slice SOURCE RECORDS ROOM QUERIES BYTES`: `slice::slice_index` for a query `n:I0:I1` and
// `slice::slice_time` for `t:T0:T1`, one after another. Answers `ok` and for each ` | ok N : events`
// or ` | refused N`, with the count that 5 tells; and ` dirty` behind it if an entry behind the
// events changed, or any one by a refused call.
use crate::record::Records;
use crate::{record, source};
use evt_types::Refusal;
use prophesee_raw::RawSliceSource;
use std::io;
use std::io::Write;
use test_text::columns::MARK;
use test_text::{columns, given, room, show, text};

fn dispatch(
    query: &[u8],
    source: RawSliceSource,
    given: Records,
    bytes: &[u8],
    xs: &mut [u16],
    ys: &mut [u16],
    ts: &mut [i64],
    ps: &mut [u8],
) -> Result<usize, Refusal> {
    let records = given.all;
    let n = given.n;
    let a = text::field(query, b':', 1);
    let b = text::field(query, b':', 2);
    if text::at(query, 0) == b't' {
        return index_fixed::slice_time(
            bytes,
            source,
            records,
            n,
            text::signed(a),
            text::signed(b),
            &mut *xs,
            &mut *ys,
            &mut *ts,
            &mut *ps,
        );
    }
    index_fixed::slice_index(
        bytes,
        source,
        records,
        n,
        text::number(a) as usize,
        text::number(b) as usize,
        &mut *xs,
        &mut *ys,
        &mut *ts,
        &mut *ps,
    )
}

// Lends the first entries of the columns, as many as the case says.
fn lend(
    query: &[u8],
    source: RawSliceSource,
    given: Records,
    room: &[u8],
    bytes: &[u8],
    xs: &mut [u16],
    ys: &mut [u16],
    ts: &mut [i64],
    ps: &mut [u8],
) -> Result<usize, Refusal> {
    let x = columns::lent(room, 0, xs.len());
    let y = columns::lent(room, 1, ys.len());
    let t = columns::lent(room, 2, ts.len());
    let p = columns::lent(room, 3, ps.len());
    dispatch(
        query,
        source,
        given,
        bytes,
        &mut xs[..x],
        &mut ys[..y],
        &mut ts[..t],
        &mut ps[..p],
    )
}

fn show_answer(stdout: &mut impl Write, answer: Result<usize, Refusal>) -> io::Result<()> {
    write!(stdout, " | ")?;
    match answer {
        Ok(n) => write!(stdout, "ok {n} :"),
        Err(why) => show::refusal(stdout, why),
    }
}

fn run(
    stdout: &mut impl Write,
    query: &[u8],
    source: RawSliceSource,
    given: Records,
    room: &[u8],
    bytes: &[u8],
) -> io::Result<()> {
    let mut xs = columns::marked(MARK.x);
    let mut ys = columns::marked(MARK.y);
    let mut ts = columns::marked(MARK.t);
    let mut ps = columns::marked(MARK.p);
    let answer = lend(
        query, source, given, room, bytes, &mut xs, &mut ys, &mut ts, &mut ps,
    );
    show_answer(stdout, answer)?;
    columns::show_all(stdout, &xs, &ys, &ts, &ps, answer.unwrap_or(0))
}

// One query after another; `;` parts them.
pub fn answer(stdout: &mut impl Write, case: &[u8]) -> io::Result<()> {
    write!(stdout, "ok")?;
    let source = source::read(text::field(case, b' ', 2));
    let given = record::read_all(text::field(case, b' ', 3));
    let lent = text::field(case, b' ', 4);
    let mut buffer: [u8; 1572864] = room(0);
    let n = given::read(text::field(case, b' ', 6), &mut buffer);
    let bytes = text::part(&buffer, 0, n);
    let queries = text::field(case, b' ', 5).split(|&b| b == b';');
    for query in queries.take_while(|query| !query.is_empty()) {
        run(stdout, query, source, given, lent, bytes)?;
    }
    Ok(())
}
