// `ID open SIZE SPACING ROOM BYTES`: `index_open::open`.
// `ID openw ENC SIZE SPACING ROOM BYTES`: `index_open::open_words`.
// ROOM is how many records are lent. Both answer `ok SOURCE N : records` or `refused N`, with the
// count that 9 tells; and ` dirty` behind it if a record behind those changed, or any one by a
// refused call.
use crate::{record, source};
use prophesee_raw::fixed::FixedIndex;
use prophesee_raw::{Encoding, OpenOptions, SensorSize, WordsOptions};
use std::io;
use std::io::Write;
use test_text::{given, options, room, show, text};

// With the fields behind the size: spacing, room. Words have an encoding, a recording names its own.
fn open(
    encoding: Option<Encoding>,
    sensor_size: Option<SensorSize>,
    rest: &[u8],
    bytes: &[u8],
) -> FixedIndex {
    let [spacing, room] = text::numbers::<2>(rest);
    let spacing = spacing as usize;
    let n = (room as usize).min(64);
    let marks = record::marks();
    match encoding {
        None => {
            let options = OpenOptions {
                sensor_size,
                spacing,
            };
            index_fixed::open_into(bytes, options, marks, n)
        }
        Some(encoding) => {
            let options = WordsOptions {
                encoding,
                sensor_size,
                spacing,
            };
            index_fixed::open_words_into(bytes, options, marks, n)
        }
    }
}

fn show_answer(stdout: &mut impl Write, made: FixedIndex) -> io::Result<()> {
    match made.answer {
        Ok(opening) => {
            write!(stdout, "ok ")?;
            source::show(stdout, opening.source)?;
            write!(stdout, " {} :", opening.records)?;
        }
        Err(why) => show::refusal(stdout, why)?,
    }
    let n = made.answer.map_or(0, |opening| opening.records);
    record::show_all(stdout, made.records, n)
}

// With the fields behind: size, spacing, room, bytes.
fn with(stdout: &mut impl Write, encoding: Option<Encoding>, rest: &[u8]) -> io::Result<()> {
    let mut buffer: [u8; 1572864] = room(0);
    let n = given::read(text::field(rest, b' ', 3), &mut buffer);
    let size = options::read_size(rest);
    let made = open(
        encoding,
        size,
        text::from_field(rest, b' ', 1),
        text::part(&buffer, 0, n),
    );
    show_answer(stdout, made)
}

pub fn answer(stdout: &mut impl Write, case: &[u8], words: bool) -> io::Result<()> {
    if words {
        let encoding = options::read_encoding(text::field(case, b' ', 2));
        return with(stdout, Some(encoding), text::from_field(case, b' ', 3));
    }
    with(stdout, None, text::from_field(case, b' ', 2))
}
