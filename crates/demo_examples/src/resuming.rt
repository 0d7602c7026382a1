// A stream that breaks off, and is resumed: words alone, and a recording with a header, each by a fresh
// second writer and by one that stands behind what has arrived. The contracts say that every number is
// within bounds here; `min` spares the proof.
use crate::{print, reading, slicing};
use prophesee_raw::{Decoder, Encoding, RawEventSink};
use std::io;
use std::io::Write;
use test_text::text;

// A writer appends the events from number `from` on. Answers how many bytes it wrote.
fn append_from(writer: RawEventSink, from: usize, output: &mut [u8]) -> usize {
    let xs = [10, 11, 13, 20];
    let ys = [7, 7, 7, 9];
    let ts = [4097, 4097, 4097, 5000];
    let ps = [0, 0, 0, 1];
    let k = from.min(4);
    let appended = prophesee_raw::append(
        writer,
        64,
        48,
        &xs[k..],
        &ys[k..],
        &ts[k..],
        &ps[k..],
        &mut *output,
    );
    appended.answer.unwrap_or(0)
}

// A fresh writer of all events, which sends a header or none.
fn write(header: bool, output: &mut [u8]) {
    let writer = RawEventSink::to_writer(Encoding::Evt3, header);
    append_from(writer, 0, &mut *output);
}

// A second writer appends behind the bytes of a stream that are kept.
fn go_on(writer: RawEventSink, from: usize, stream: &mut [u8], kept: usize) -> usize {
    let at = kept.min(stream.len());
    append_from(writer, from, &mut stream[at..])
}

fn fresh() -> RawEventSink {
    RawEventSink::to_writer(Encoding::Evt3, false)
}

// An index of just these bytes: event 2, by number.
fn slice_arrived(stdout: &mut impl Write, arrived: &[u8]) -> io::Result<()> {
    let index = slicing::open_words(arrived, Encoding::Evt3);
    if let Ok(opened) = index.answer {
        slicing::by_number(
            stdout,
            "cut_and_resume, number 2: ",
            arrived,
            opened,
            index.records,
            2,
            3,
        )?;
    }
    Ok(())
}

// Of 16 bytes 13 arrive: six words, and half of the seventh, which is written over: a second writer,
// here a fresh one, sends the time and the row again, and then the events that are missing. The joined
// stream has all of them. A fresh one does as long as nothing is past the first loop of EVT3, 2^24
// microseconds.
pub fn cut_and_resume(stdout: &mut impl Write) -> io::Result<()> {
    let mut stream = [0; 32];
    write(false, &mut stream);
    let arrived = text::part(&stream, 0, 13);
    let n = reading::decode(stdout, "cut_and_resume, arrived: ", arrived, Encoding::Evt3)?;
    slice_arrived(stdout, arrived)?;
    let kept = 13 - 13 % Decoder::WORD_SIZE;
    let m = go_on(fresh(), n, &mut stream, kept).min(20);
    let joined = text::part(&stream, 0, kept + m);
    reading::decode(stdout, "cut_and_resume, joined: ", joined, Encoding::Evt3)?;
    Ok(())
}

fn body_start(recording: &[u8]) -> usize {
    prophesee_raw::parse_header(recording, None).map_or(0, |header| header.data_offset)
}

// How long a recording is without a broken last word. Words are counted from where the body starts.
fn whole_words(recording: &[u8]) -> usize {
    let len = recording.len();
    let at = body_start(recording).min(len);
    len - (len - at) % Decoder::WORD_SIZE
}

// The same behind a header of 57 bytes, which names the size. The second writer sends no header.
pub fn cut_recording(stdout: &mut impl Write) -> io::Result<()> {
    let mut stream = [0; 96];
    write(true, &mut stream);
    let arrived = text::part(&stream, 0, 70);
    let n = reading::read(
        stdout,
        "cut_recording, arrived: ",
        arrived,
        reading::whole(),
    )?;
    let kept = whole_words(arrived).min(70);
    let m = go_on(fresh(), n, &mut stream, kept).min(20);
    let joined = text::part(&stream, 0, kept + m);
    reading::read(stdout, "cut_recording, joined: ", joined, reading::whole())?;
    Ok(())
}

// The stream of `cut_and_resume`, but the second writer is the one that stands behind what has arrived.
// It holds the coarse time with its loops, so it is right for a show of any length, and sends only the
// fine time and the row again: its words are 6388 0009 2814, none of type 8.
pub fn resume_stream(stdout: &mut impl Write) -> io::Result<()> {
    let mut stream = [0; 32];
    write(false, &mut stream);
    let arrived = text::part(&stream, 0, 13);
    let n = reading::decode(stdout, "resume_stream, arrived: ", arrived, Encoding::Evt3)?;
    let resumed = prophesee_raw::resume_words(arrived, Encoding::Evt3);
    let kept = 13 - 13 % Decoder::WORD_SIZE;
    let m = go_on(resumed.sink, n, &mut stream, kept).min(20);
    print::bytes(
        stdout,
        "resume_stream: ",
        text::part(&stream, kept, kept + m),
    )?;
    let joined = text::part(&stream, 0, kept + m);
    reading::decode(stdout, "resume_stream, joined: ", joined, Encoding::Evt3)?;
    Ok(())
}

// The recording of `cut_recording`: the encoding is the header's, and no header is due again.
pub fn resume_recording(stdout: &mut impl Write) -> io::Result<()> {
    let mut stream = [0; 96];
    write(true, &mut stream);
    let arrived = text::part(&stream, 0, 70);
    let n = reading::read(
        stdout,
        "resume_recording, arrived: ",
        arrived,
        reading::whole(),
    )?;
    let resumed = prophesee_raw::resume_raw(arrived);
    let kept = whole_words(arrived).min(70);
    let m = go_on(resumed.sink, n, &mut stream, kept).min(20);
    print::bytes(
        stdout,
        "resume_recording: ",
        text::part(&stream, kept, kept + m),
    )?;
    let joined = text::part(&stream, 0, kept + m);
    reading::read(
        stdout,
        "resume_recording, joined: ",
        joined,
        reading::whole(),
    )?;
    Ok(())
}
