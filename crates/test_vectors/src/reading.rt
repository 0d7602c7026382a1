// `ID read SIZE LIMIT ROOM HEX`: `read::read_raw`.
// `ID words ENC SIZE LIMIT ROOM HEX`: `read::decode_words`.
// Both answer `ok EVT3 W H N : events` or `refused N`, with the count that 5 tells; and ` dirty`
// behind it if an entry behind the events changed, or any one by a refused call.
use evt_types::{Encoding, Refusal};
use read::LoadOptions;
use read_rules::Reading;
use std::io;
use std::io::Write;
use test_text::columns::MARK;
use test_text::{columns, options, room, show, text};

fn show_reading(stdout: &mut impl Write, answer: Result<Reading, Refusal>) -> io::Result<()> {
    match answer {
        Ok(r) => {
            write!(stdout, "ok ")?;
            show::encoding(stdout, r.encoding)?;
            write!(stdout, " {} {} {} :", r.width, r.height, r.count)
        }
        Err(why) => show::refusal(stdout, why),
    }
}

// Lends the first entries of the columns, as many as the case says. Words have an encoding, a recording
// names its own.
fn lend(
    encoding: Option<Encoding>,
    options: LoadOptions,
    room: &[u8],
    bytes: &[u8],
    xs: &mut [u16],
    ys: &mut [u16],
    ts: &mut [i64],
    ps: &mut [u8],
) -> Result<Reading, Refusal> {
    let x = columns::lent(room, 0, xs.len());
    let y = columns::lent(room, 1, ys.len());
    let t = columns::lent(room, 2, ts.len());
    let p = columns::lent(room, 3, ps.len());
    match encoding {
        None => {
            read::read_raw(
                bytes,
                options,
                &mut xs[..x],
                &mut ys[..y],
                &mut ts[..t],
                &mut ps[..p],
            )
        }
        Some(encoding) => {
            read::decode_words(
                bytes,
                encoding,
                options.sensor_size,
                options.max_events,
                &mut xs[..x],
                &mut ys[..y],
                &mut ts[..t],
                &mut ps[..p],
            )
        }
    }
}

fn run(
    stdout: &mut impl Write,
    encoding: Option<Encoding>,
    options: LoadOptions,
    room: &[u8],
    bytes: &[u8],
) -> io::Result<()> {
    let mut xs = columns::marked(MARK.x);
    let mut ys = columns::marked(MARK.y);
    let mut ts = columns::marked(MARK.t);
    let mut ps = columns::marked(MARK.p);
    let answer = lend(
        encoding, options, room, bytes, &mut xs, &mut ys, &mut ts, &mut ps,
    );
    show_reading(stdout, answer)?;
    let n = answer.map_or(0, |r| r.count);
    columns::show_all(stdout, &xs, &ys, &ts, &ps, n)
}

// With the fields behind: size, limit, room, bytes.
fn with(stdout: &mut impl Write, encoding: Option<Encoding>, rest: &[u8]) -> io::Result<()> {
    let options = LoadOptions {
        sensor_size: options::read_size(text::field(rest, b' ', 0)),
        max_events: options::read_limit(text::field(rest, b' ', 1)),
    };
    let mut buffer: [u8; 4096] = room(0);
    let n = text::read_hex(text::field(rest, b' ', 3), &mut buffer);
    run(
        stdout,
        encoding,
        options,
        text::field(rest, b' ', 2),
        text::part(&buffer, 0, n),
    )
}

pub fn answer(stdout: &mut impl Write, case: &[u8], words: bool) -> io::Result<()> {
    if words {
        let encoding = options::read_encoding(text::field(case, b' ', 2));
        return with(stdout, Some(encoding), text::from_field(case, b' ', 3));
    }
    with(stdout, None, text::from_field(case, b' ', 2))
}
