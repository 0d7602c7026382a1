// Reading into four columns that the caller lends.
use crate::{given, print};
use prophesee_raw::{Encoding, LoadOptions, SensorSize};
use std::io;
use std::io::Write;

// Answers how many events there are.
pub fn read(
    stdout: &mut impl Write,
    name: &str,
    recording: &[u8],
    options: LoadOptions,
) -> io::Result<usize> {
    let mut xs = [0; 4];
    let mut ys = [0; 4];
    let mut ts = [0; 4];
    let mut ps = [0; 4];
    let answer = prophesee_raw::read_raw(recording, options, &mut xs, &mut ys, &mut ts, &mut ps);
    print::reading(stdout, name, answer)?;
    let count = answer.map_or(0, |r| r.count);
    print::events(stdout, count, xs, ys, ts, ps)?;
    Ok(count)
}

// All events; encoding and size are those that the header names.
pub fn whole() -> LoadOptions {
    LoadOptions {
        sensor_size: None,
        max_events: None,
    }
}

pub fn read_recording(stdout: &mut impl Write) -> io::Result<()> {
    let recording = given::recording();
    read(stdout, "read_recording: ", &recording, whole())?;
    Ok(())
}

// A header ends at its line `% end`: what follows is the body, though it begins with `%`, byte 25 of the
// word 8025. The words are 8025 0007 2805.
pub fn read_past_end_line(stdout: &mut impl Write) -> io::Result<()> {
    read(
        stdout,
        "read_past_end_line: ",
        b"% evt 3\n% end\n\x25\x80\x07\x00\x05\x28",
        whole(),
    )?;
    Ok(())
}

// The caller's size comes before the header's, and a limit may fall within a word.
pub fn read_limited(stdout: &mut impl Write) -> io::Result<()> {
    let recording = given::recording();
    let options = LoadOptions {
        sensor_size: Some(SensorSize {
            width: 32,
            height: 32,
        }),
        max_events: Some(2),
    };
    read(stdout, "read_limited: ", &recording, options)?;
    Ok(())
}

// Words without a header: the caller names the encoding. Without a size all events are kept, and the
// size is the minimum that holds them. Answers how many events there are.
pub fn decode(
    stdout: &mut impl Write,
    name: &str,
    words: &[u8],
    encoding: Encoding,
) -> io::Result<usize> {
    let mut xs = [0; 4];
    let mut ys = [0; 4];
    let mut ts = [0; 4];
    let mut ps = [0; 4];
    let answer = prophesee_raw::decode_words(
        words, encoding, None, None, &mut xs, &mut ys, &mut ts, &mut ps,
    );
    print::reading(stdout, name, answer)?;
    let count = answer.map_or(0, |r| r.count);
    print::events(stdout, count, xs, ys, ts, ps)?;
    Ok(count)
}

// The words 80000001 19002807.
pub fn read_words(stdout: &mut impl Write) -> io::Result<()> {
    decode(
        stdout,
        "read_words: ",
        b"\x01\x00\x00\x80\x07\x28\x00\x19",
        Encoding::Evt2,
    )?;
    Ok(())
}

// EVT2.1: the lower half of an event word is a mask, and each bit of it that is set is an event. The words
// are 8000004000000000 0040000700002C00 1100000900000000 1141000900100000: the second has three events,
// the third none, the last one.
pub fn read_evt21(stdout: &mut impl Write) -> io::Result<()> {
    read(
        stdout,
        "read_evt21: ",
        b"% format EVT21\n% geometry 64x48\n\0\0\0\0\x40\0\0\x80\0\x2c\0\0\x07\0\x40\0\0\0\0\0\x09\0\0\x11\0\0\x10\0\x09\0\x41\x11",
        whole(),
    )?;
    Ok(())
}

// `64o` for `640`: the place is that of the `o`.
pub fn bad_number(stdout: &mut impl Write) -> io::Result<()> {
    print::number(stdout, "bad_number: ", prophesee_raw::read_number(b"64o"))?;
    print::number(
        stdout,
        "bad_number, mended: ",
        prophesee_raw::read_number(b"640"),
    )
}
