// Writing into an output that the caller lends.
use crate::{print, reading};
use prophesee_raw::{Appended, Encoding, RawEventSink};
use std::io;
use std::io::Write;
use test_text::text;

// Three events of time t. The size is for the header alone.
pub fn append(writer: RawEventSink, t: i64, output: &mut [u8]) -> Appended {
    let xs = [10, 11, 13];
    let ys = [7, 7, 7];
    let ts = [t, t, t];
    let ps = [0, 0, 0];
    prophesee_raw::append(writer, 64, 48, &xs, &ys, &ts, &ps, &mut *output)
}

// The same, and what it answered. Answers the next writer.
pub fn append_told(
    stdout: &mut impl Write,
    name: &str,
    writer: RawEventSink,
    t: i64,
    output: &mut [u8],
) -> io::Result<RawEventSink> {
    let appended = append(writer, t, &mut *output);
    print::append(stdout, name, appended.answer, output)?;
    Ok(appended.sink)
}

// Words without a header. An append answers the next writer, which knows the time and the
// row that were sent: the second one sends less.
pub fn write_words(stdout: &mut impl Write) -> io::Result<()> {
    let mut output = [0; 32];
    let writer = RawEventSink::to_writer(Encoding::Evt3, false);
    let next = append_told(stdout, "write_words: ", writer, 4097, &mut output)?;
    append_told(stdout, "write_words, next: ", next, 5000, &mut output)?;
    Ok(())
}

// A recording: the first append sends the header too. It is read back.
pub fn write_recording(stdout: &mut impl Write) -> io::Result<()> {
    let mut output = [0; 96];
    let writer = RawEventSink::to_writer(Encoding::Evt2, true);
    let appended = append(writer, 4097, &mut output);
    if let Ok(n) = appended.answer {
        let recording = text::part(&output, 0, n);
        reading::read(stdout, "write_recording: ", recording, reading::whole())?;
    }
    Ok(())
}

// EVT2.1: events of one time, row and polarity in one block of 32 columns share a word, and column 32
// opens another block. The words are 8000004000000000 0040000780002400 0041000700000001.
pub fn write_evt21(stdout: &mut impl Write) -> io::Result<()> {
    let xs = [10, 13, 31, 32];
    let ys = [7, 7, 7, 7];
    let ts = [4097, 4097, 4097, 4097];
    let ps = [0, 0, 0, 0];
    let mut output = [0; 32];
    let writer = RawEventSink::to_writer(Encoding::Evt21, false);
    let appended = prophesee_raw::append(writer, 64, 48, &xs, &ys, &ts, &ps, &mut output);
    print::append(stdout, "write_evt21: ", appended.answer, &output)
}

// EVT3 counts 2^24 microseconds and starts anew: for each such loop that passes the writer sends
// 8FFF 8000. An event at 2^24 from a fresh writer has the words 8FFF 8000 0009 2814, and reads as it
// was written.
pub fn long_show(stdout: &mut impl Write) -> io::Result<()> {
    let xs = [20];
    let ys = [9];
    let ts = [16777216];
    let ps = [1];
    let mut output = [0; 32];
    let writer = RawEventSink::to_writer(Encoding::Evt3, false);
    let appended = prophesee_raw::append(writer, 64, 48, &xs, &ys, &ts, &ps, &mut output);
    print::append(stdout, "long_show: ", appended.answer, &output)?;
    if let Ok(n) = appended.answer {
        reading::decode(
            stdout,
            "long_show, read: ",
            text::part(&output, 0, n),
            Encoding::Evt3,
        )?;
    }
    Ok(())
}
