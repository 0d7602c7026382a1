// `ID number HEX`: `header_text::number::read_number`. Answers `value N` or `place K`.
use std::io;
use std::io::Write;
use test_text::{room, text};

pub fn answer(stdout: &mut impl Write, case: &[u8]) -> io::Result<()> {
    let mut buffer: [u8; 4096] = room(0);
    let n = text::read_hex(text::field(case, b' ', 2), &mut buffer);
    match header_text::number::read_number(text::part(&buffer, 0, n)) {
        Ok(value) => write!(stdout, "value {value}"),
        Err(place) => write!(stdout, "place {place}"),
    }
}
