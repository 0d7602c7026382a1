// `ID step STATE HEX`: every whole word of the bytes, one after another, each by `Codec::step`.
// `ID word STATE HEX`: one `Codec::step` over all the bytes, which takes the first word alone.
// Both answer `ok STATE N : events`, or `refused 10` as soon as a step is refused.
use evt_codec::Codec;
use evt_types::{EventVector, Refusal};
use std::io;
use std::io::Write;
use test_text::{room, show, state, text};

// What the steps so far come to: the decoder, and how many events.
#[derive(Clone, Copy)]
struct Stepped {
    codec: Codec,
    count: u64,
}

// The events of a vector are counted and, if asked for, shown. A mask has 32 bits.
fn walk(stdout: &mut impl Write, v: EventVector, before: u64, shown: bool) -> io::Result<u64> {
    let mut rest = v;
    let mut count = before;
    for _ in 0..32 {
        let Some((e, others)) = rest.next() else {
            break;
        };
        if shown {
            write!(stdout, " ")?;
            show::event(stdout, e)?;
        }
        rest = others;
        count = count.wrapping_add(1);
    }
    Ok(count)
}

// How many steps there are: one for every whole word, or for the first alone.
fn steps(len: usize, size: usize, every: bool) -> usize {
    if every {
        return len.checked_div(size).unwrap_or(1);
    }
    1
}

fn over(
    stdout: &mut impl Write,
    codec: Codec,
    bytes: &[u8],
    every: bool,
    shown: bool,
) -> io::Result<Result<Stepped, Refusal>> {
    let size = codec.word_size();
    let mut r = Stepped { codec, count: 0 };
    let mut rest = bytes;
    for _ in 0..steps(bytes.len(), size, every) {
        let decoded = r.codec.step(rest);
        let v = match decoded.answer {
            Ok(v) => v,
            Err(why) => return Ok(Err(why)),
        };
        r = Stepped {
            codec: decoded.next,
            count: walk(stdout, v, r.count, shown)?,
        };
        rest = text::part(rest, size, rest.len());
    }
    Ok(Ok(r))
}

// State and count stand before the events, so the steps are taken twice: first to tell these, then to show the events.
fn show_steps(stdout: &mut impl Write, codec: Codec, bytes: &[u8], every: bool) -> io::Result<()> {
    match over(stdout, codec, bytes, every, false)? {
        Ok(r) => {
            write!(stdout, "ok ")?;
            state::show(stdout, r.codec)?;
            write!(stdout, " {} :", r.count)?;
            let _ = over(stdout, codec, bytes, every, true)?;
            Ok(())
        }
        Err(why) => write!(stdout, "refused {}", u32::from(why)),
    }
}

pub fn answer(stdout: &mut impl Write, case: &[u8], every: bool) -> io::Result<()> {
    let codec = state::read(text::field(case, b' ', 2));
    let mut buffer: [u8; 4096] = room(0);
    let n = text::read_hex(text::field(case, b' ', 3), &mut buffer);
    show_steps(stdout, codec, text::part(&buffer, 0, n), every)
}
