// Refusals: the number of the table, and the count that 5, 9 and 11 tell. A refused call leaves every
// buffer and the writer as they were.
use crate::{given, print, reading, slicing, writing};
use prophesee_raw::{Encoding, RawEventSink};
use std::io;
use std::io::Write;

// No header that names an encoding: 2.
pub fn no_encoding(stdout: &mut impl Write) -> io::Result<()> {
    reading::read(stdout, "no_encoding: ", b"", reading::whole())?;
    Ok(())
}

// Columns of 4 for the 12 events of 8001 4FFF: 5 tells the 12.
pub fn columns_too_short(stdout: &mut impl Write) -> io::Result<()> {
    reading::decode(
        stdout,
        "columns_too_short: ",
        b"\x01\x80\xff\x4f",
        Encoding::Evt3,
    )?;
    Ok(())
}

// Room for 3 records, where 16 bytes of body at spacing 4 want 4: 9 tells the 4.
pub fn records_too_few(stdout: &mut impl Write) -> io::Result<()> {
    let recording = given::recording();
    let index = slicing::open(&recording, 3);
    print::opening(stdout, "records_too_few: ", index.answer)
}

// Times that fall: 6. The writer that comes back is the one that was given.
pub fn times_fall(stdout: &mut impl Write) -> io::Result<()> {
    let mut output = [0; 32];
    let writer = RawEventSink::to_writer(Encoding::Evt3, false);
    let first = writing::append(writer, 5000, &mut output);
    let next = writing::append_told(stdout, "times_fall: ", first.sink, 4097, &mut output)?;
    writing::append_told(stdout, "times_fall, in order: ", next, 5000, &mut output)?;
    Ok(())
}

// 3 bytes for an append that needs 10: 11 tells the 10.
pub fn output_too_short(stdout: &mut impl Write) -> io::Result<()> {
    let mut output = [0; 3];
    let writer = RawEventSink::to_writer(Encoding::Evt3, false);
    writing::append_told(stdout, "output_too_short: ", writer, 4097, &mut output)?;
    Ok(())
}
