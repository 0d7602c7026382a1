// The header of a Prophesee RAW recording: the lines before the body, each of which begins with
// `%`; a line `% end` is the last. `parse_header` is total, and its whole answer is one equation. What
// the answer is stands in specs/Header.antt, over the lines (specs/Lines.antt), and in crate
// `header_text` the numbers and sizes (specs/Size.antt) and the texts (specs/Text.antt).
// specs/Notes.antt has only what the functions in here keep.

#![tactic(auto)]

ghost use Rattle.std.specs.Prelude.{◌≡◌};
ghost use Rattle.header.specs.Lines.{body_of, is_end};
ghost use Rattle.header.specs.Header.{read_line, encoding_of, has_zero, Parsed};
ghost use Rattle.header.specs.Notes.{line_length, said_of, scan_of};

use evt_types::{Encoding, MOST_BYTES, Refusal, SensorSize};
use header_text::size::geometry;
use header_text::text::{ByteClass, begins_with, is_word, tail_from, trim, until};

// Where the body starts, the size that holds (the caller's before the header's), and the encoding.
#[derive(Clone, Copy, Debug, PartialEq, Eq)]
pub struct Header {
    pub data_offset: usize,
    pub sensor_size: Option<SensorSize>,
    pub encoding: Encoding,
}

// What the lines read so far say: the values of the last `format` and the last `evt` line, as parts of
// the recording, empty where there is none; and the size.
#[derive(Clone, Copy)]
struct Seen<'a> {
    format: &'a [u8],
    evt: &'a [u8],
    size: Option<SensorSize>,
}

// Where the body starts, and what the lines before it say.
#[derive(Clone, Copy)]
struct Scan<'a> {
    at: usize,
    seen: Seen<'a>,
}

// A line without the blanks around it and the `%`s before it.
fn line_body(line: &[u8]) -> &[u8]
    ensures { result.now ≡ body_of line.now }
{
    trim(tail_from(trim(line), ByteClass::NotPercent))
}

// Whether a line ends the header.
fn is_end(line: &[u8]) -> bool
    ensures { result ≡ is_end line.now }
{
    is_word(line_body(line), b"end")
}

// The key runs up to the first blank, and the value is the rest.
fn read_line<'a>(seen: Seen<'a>, line: &'a [u8]) -> Seen<'a>
    ensures { said_of result ≡ read_line (said_of seen.entry) line.now }
{
    let body = line_body(line);
    let n = until(body, ByteClass::Blank);
    let key = &body[..n];
    let value = trim(&body[n..]);
    if is_word(key, b"geometry") {
        return Seen {
            size: geometry(value, seen.size),
            ..seen
        };
    }
    if is_word(key, b"format") {
        return Seen {
            format: value,
            ..seen
        };
    }
    if is_word(key, b"evt") {
        return Seen { evt: value, ..seen };
    }
    seen
}

// The length of the first line, with its newline.
fn line_length(s: &[u8]) -> usize
    ensures { result ≡ line_length s.now }
{
    (until(s, ByteClass::Byte(b'\n')) + 1).min(s.len())
}

// A `while`, since each turn takes off a line, whose length `line_length` finds.
fn scan_lines(s: &[u8]) -> Scan<'_>
    ensures { (result.at, said_of result.seen) ≡ scan_of s.now }
{
    let mut seen = Seen {
        format: &[],
        evt: &[],
        size: None,
    };
    let mut at = 0;
    while at < s.len() {
        if s[at] != b'%' {
            return Scan { at, seen };
        }
        let left = &s[at..];
        let n = line_length(left);
        let line = &left[..n];
        seen = read_line(seen, line);
        at += n;
        if is_end(line) {
            return Scan { at, seen };
        }
    }
    Scan { at, seen }
}

// EVT3 before EVT2.1 before EVT2, whichever of the two keys names it.
#[tactic(auto, unfolding(crate::specs::Header::encoding_of))]
fn name_encoding(seen: Seen) -> Option<Encoding>
    ensures { result ≡ encoding_of (said_of seen.entry) }
{
    let Seen { format, evt, .. } = seen;
    if begins_with(format, b"evt3") || begins_with(evt, b"3") {
        return Some(Encoding::Evt3);
    }
    if begins_with(format, b"evt21") || begins_with(evt, b"2.1") {
        return Some(Encoding::Evt21);
    }
    if begins_with(format, b"evt2") || begins_with(evt, b"2") {
        return Some(Encoding::Evt2);
    }
    None
}

// Whether a known size has a side of 0.
#[tactic(auto, unfolding(crate::specs::Header::has_zero))]
pub fn has_zero(size: Option<SensorSize>) -> bool
    ensures { result ≡ has_zero size }
{
    match size {
        Some(s) => s.width == 0 || s.height == 0,
        None => false,
    }
}

// Reads the header of a recording; `size` is the caller's.
pub fn parse_header(recording: &[u8], size: Option<SensorSize>) -> Result<Header, Refusal>
    ensures { Parsed recording.now size result }
{
    if MOST_BYTES < recording.len() {
        return Err(Refusal::TooLong);
    }
    let scan = scan_lines(recording);
    if !recording[..scan.at].is_ascii() {
        return Err(Refusal::HeaderNotAscii);
    }
    let Some(encoding) = name_encoding(scan.seen) else {
        return Err(Refusal::UnknownEncoding);
    };
    // The caller's size, or without one the header's.
    let sensor_size = size.or(scan.seen.size);
    if has_zero(sensor_size) {
        return Err(Refusal::InvalidSensorSize);
    }
    Ok(Header {
        data_offset: scan.at,
        sensor_size,
        encoding,
    })
}
