// Reading a number, a header, a recording, or headerless words into four lent columns.
ghost use Rattle.std.specs.Prelude.{◌≡◌};
ghost use Rattle.header.specs.Header.{header_verdict};
ghost use Rattle.header_text.specs.Number.{read_of};
ghost use Rattle.c_values.specs.{Number.answer_of, Options.size_of, Reading.parsed_of, Reading.DecodesWordsC, Reading.ReadsRawC};

use c_values::encoding::coded;
use c_values::number::PropheseeNumber;
use c_values::options::{PropheseeOptions, size_of};
use c_values::reading::{PropheseeHeader, PropheseeReading};
use read::LoadOptions;

// A decimal number, or the place where a text is none.
#[unsafe(no_mangle)]
pub extern "C" fn prophesee_read_number(text: &[u8]) -> PropheseeNumber
    ensures { result ≡ answer_of (read_of text.now) }
{
    PropheseeNumber::from(header_text::number::read_number(text))
}

#[unsafe(no_mangle)]
pub extern "C" fn prophesee_parse_header(
    recording: &[u8],
    sized: u8,
    width: usize,
    height: usize,
) -> PropheseeHeader
    ensures { result ≡ parsed_of (header_verdict recording.now (size_of sized width height)) }
{
    let size = size_of(sized, width, height);
    PropheseeHeader::from(header::parse_header(recording, size))
}

// A recording: its header, then its body.
#[unsafe(no_mangle)]
pub extern "C" fn prophesee_read_raw(
    recording: &[u8],
    options: PropheseeOptions,
    xs: &mut [u16],
    ys: &mut [u16],
    ts: &mut [i64],
    ps: &mut [u8],
) -> PropheseeReading
    ensures { ReadsRawC recording.now options result xs.old ys.old ts.old ps.old
        xs.new ys.new ts.new ps.new }
{
    let o = LoadOptions::from(options);
    let answer = read::read_raw(recording, o, &mut *xs, &mut *ys, &mut *ts, &mut *ps);
    PropheseeReading::from(answer)
}

// Headerless words: only the caller's encoding and size are used, and a first byte `%` is no header.
#[unsafe(no_mangle)]
pub extern "C" fn prophesee_decode_words(
    words: &[u8],
    encoding: u32,
    options: PropheseeOptions,
    xs: &mut [u16],
    ys: &mut [u16],
    ts: &mut [i64],
    ps: &mut [u8],
) -> PropheseeReading
    ensures { DecodesWordsC words.now encoding options result
        xs.old ys.old ts.old ps.old
        xs.new ys.new ts.new ps.new }
{
    let o = LoadOptions::from(options);
    match coded(encoding, words.len()) {
        Ok(e) => {
            let answer = read::decode_words(
                words,
                e,
                o.sensor_size,
                o.max_events,
                &mut *xs,
                &mut *ys,
                &mut *ts,
                &mut *ps,
            );
            PropheseeReading::from(answer)
        }
        Err(refusal) => PropheseeReading::from(Err(refusal)),
    }
}
