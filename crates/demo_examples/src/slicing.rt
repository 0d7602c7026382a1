// An index of a recording, and slices by number and by time. Its records are held by value.
use crate::{given, print};
use prophesee_raw::fixed::FixedIndex;
use prophesee_raw::{Checkpoint, Encoding, OpenOptions, Opening, WordsOptions, fixed};
use std::io;
use std::io::Write;

// A record for every 4 bytes of the body, with room for so many.
pub fn open(recording: &[u8], room: usize) -> FixedIndex {
    let options = OpenOptions {
        sensor_size: None,
        spacing: 4,
    };
    fixed::open(recording, options, room)
}

// The same for words without a header, with room for 8.
pub fn open_words(words: &[u8], encoding: Encoding) -> FixedIndex {
    let options = WordsOptions {
        encoding,
        sensor_size: None,
        spacing: 4,
    };
    fixed::open_words(words, options, 8)
}

// The events from number i0 to before i1.
pub fn by_number(
    stdout: &mut impl Write,
    name: &str,
    recording: &[u8],
    opened: Opening,
    records: [Checkpoint; 64],
    i0: usize,
    i1: usize,
) -> io::Result<()> {
    let source = opened.source;
    let n = opened.records;
    let mut xs = [0; 4];
    let mut ys = [0; 4];
    let mut ts = [0; 4];
    let mut ps = [0; 4];
    let answer = fixed::slice_index(
        recording, source, records, n, i0, i1, &mut xs, &mut ys, &mut ts, &mut ps,
    );
    print::slice(stdout, name, answer)?;
    print::events(stdout, answer.unwrap_or(0), xs, ys, ts, ps)
}

// The events with t0 <= t < t1.
fn by_time(
    stdout: &mut impl Write,
    name: &str,
    recording: &[u8],
    opened: Opening,
    records: [Checkpoint; 64],
    t0: i64,
    t1: i64,
) -> io::Result<()> {
    let source = opened.source;
    let n = opened.records;
    let mut xs = [0; 4];
    let mut ys = [0; 4];
    let mut ts = [0; 4];
    let mut ps = [0; 4];
    let answer = fixed::slice_time(
        recording, source, records, n, t0, t1, &mut xs, &mut ys, &mut ts, &mut ps,
    );
    print::slice(stdout, name, answer)?;
    print::events(stdout, answer.unwrap_or(0), xs, ys, ts, ps)
}

// The last two events, by number, an end past the total being the total; and the first three, by time.
fn slices(
    stdout: &mut impl Write,
    recording: &[u8],
    opened: Opening,
    records: [Checkpoint; 64],
) -> io::Result<()> {
    by_number(
        stdout,
        "slice_recording, by number: ",
        recording,
        opened,
        records,
        2,
        9,
    )?;
    by_time(
        stdout,
        "slice_recording, by time: ",
        recording,
        opened,
        records,
        4097,
        5000,
    )
}

pub fn slice_recording(stdout: &mut impl Write) -> io::Result<()> {
    let recording = given::recording();
    let index = open(&recording, 8);
    print::opening(stdout, "slice_recording: ", index.answer)?;
    if let Ok(opened) = index.answer {
        slices(stdout, &recording, opened, index.records)?;
    }
    Ok(())
}
