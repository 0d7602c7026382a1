// Printing what a call answered, behind the name of the example.
use prophesee_raw::{EventVector, Opening, RawTrigger, Reading, Refusal, TriggerReading};
use std::io;
use std::io::Write;
use test_text::{columns, show, text};

// The first n events of the columns.
pub fn events(
    stdout: &mut impl Write,
    n: usize,
    xs: [u16; 4],
    ys: [u16; 4],
    ts: [i64; 4],
    ps: [u8; 4],
) -> io::Result<()> {
    columns::show_events(stdout, &xs, &ys, &ts, &ps, n)?;
    writeln!(stdout)
}

// The encoding, the size, and how many events.
pub fn reading(
    stdout: &mut impl Write,
    name: &str,
    answer: Result<Reading, Refusal>,
) -> io::Result<()> {
    write!(stdout, "{name}")?;
    match answer {
        Ok(r) => {
            show::encoding(stdout, r.encoding)?;
            write!(stdout, " {} {} {}", r.width, r.height, r.count)
        }
        Err(why) => show::refusal(stdout, why),
    }
}

pub fn reading_triggers(
    stdout: &mut impl Write,
    name: &str,
    answer: Result<TriggerReading, Refusal>,
) -> io::Result<()> {
    reading(stdout, name, answer.map(|r| r.reading))
}

// The first n triggers of the columns, which have two at most, in a line of their own.
pub fn triggers(
    stdout: &mut impl Write,
    n: usize,
    times: [i64; 2],
    ids: [u8; 2],
    values: [u8; 2],
) -> io::Result<()> {
    if n == 0 {
        return Ok(());
    }
    write!(stdout, "triggers:")?;
    for i in 0..n.min(2) {
        write!(stdout, " ")?;
        let trigger = RawTrigger {
            t: times[i],
            id: ids[i],
            value: values[i],
        };
        show::trigger(stdout, trigger)?;
    }
    writeln!(stdout)
}

pub fn trigger(
    stdout: &mut impl Write,
    name: &str,
    answer: Result<Option<RawTrigger>, Refusal>,
) -> io::Result<()> {
    write!(stdout, "{name}")?;
    if let Ok(Some(g)) = answer {
        show::trigger(stdout, g)?;
    }
    writeln!(stdout)
}

// How many events, and how many records.
pub fn opening(
    stdout: &mut impl Write,
    name: &str,
    answer: Result<Opening, Refusal>,
) -> io::Result<()> {
    write!(stdout, "{name}")?;
    match answer {
        Ok(o) => write!(stdout, "{} {}", o.source.n_events, o.records)?,
        Err(why) => show::refusal(stdout, why)?,
    }
    writeln!(stdout)
}

// How many events.
pub fn slice(
    stdout: &mut impl Write,
    name: &str,
    answer: Result<usize, Refusal>,
) -> io::Result<()> {
    write!(stdout, "{name}")?;
    match answer {
        Ok(n) => write!(stdout, "{n}"),
        Err(why) => show::refusal(stdout, why),
    }
}

// The bytes written.
pub fn append(
    stdout: &mut impl Write,
    name: &str,
    answer: Result<usize, Refusal>,
    output: &[u8],
) -> io::Result<()> {
    write!(stdout, "{name}")?;
    match answer {
        Ok(n) => show::hex(stdout, text::part(output, 0, n))?,
        Err(why) => show::refusal(stdout, why)?,
    }
    writeln!(stdout)
}

// The value, or the place.
pub fn number(stdout: &mut impl Write, name: &str, answer: Result<usize, usize>) -> io::Result<()> {
    match answer {
        Ok(n) => writeln!(stdout, "{name}{n}"),
        Err(place) => writeln!(stdout, "{name}bad at {place}"),
    }
}

pub fn bytes(stdout: &mut impl Write, name: &str, s: &[u8]) -> io::Result<()> {
    write!(stdout, "{name}")?;
    show::hex(stdout, s)?;
    writeln!(stdout)
}

// The first event of a word, if it has one.
pub fn first(
    stdout: &mut impl Write,
    name: &str,
    answer: Result<EventVector, Refusal>,
) -> io::Result<()> {
    write!(stdout, "{name}")?;
    if let Some((e, _)) = answer.ok().and_then(|v| v.next()) {
        show::event(stdout, e)?;
    }
    writeln!(stdout)
}
