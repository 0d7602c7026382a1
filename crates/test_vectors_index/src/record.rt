// Records as text, `offset/events/time/STATE`, and held by value, behind them a mark, so that a store
// to any record shows.
use prophesee_raw::{Checkpoint, Codec, Decoder};
use std::io;
use std::io::Write;
use test_text::{state, text};

const MARK: Checkpoint = Checkpoint {
    byte_offset: 0,
    event_index: 0,
    time: 7777777777777777,
    codec: Codec::Evt3(Decoder {
        initialised: true,
        time_base: 0,
        time: 0,
        y: 43981,
        base_x: 0,
        polarity: true,
        high_loops: 0,
    }),
};

// The first `n` are those of a list.
#[derive(Clone, Copy)]
pub struct Records {
    pub all: [Checkpoint; 64],
    pub n: usize,
}

pub fn marks() -> [Checkpoint; 64] {
    [MARK; 64]
}

// No `==`: Checkpoint has no PartialEq.
fn is_marked(c: Checkpoint) -> bool {
    c.time == MARK.time
        && c.byte_offset == MARK.byte_offset
        && c.event_index == MARK.event_index
        && c.codec == MARK.codec
}

fn show(stdout: &mut impl Write, c: Checkpoint) -> io::Result<()> {
    write!(stdout, " {}/{}/{}/", c.byte_offset, c.event_index, c.time)?;
    state::show(stdout, c.codec)
}

// The first n, and ` dirty` if one behind them hasn't its mark any more.
pub fn show_all(stdout: &mut impl Write, all: [Checkpoint; 64], n: usize) -> io::Result<()> {
    for c in all.iter().take(n) {
        show(stdout, *c)?;
    }
    if all.iter().skip(n).any(|c| !is_marked(*c)) {
        write!(stdout, " dirty")?;
    }
    Ok(())
}

fn read(s: &[u8]) -> Checkpoint {
    let [byte_offset, event_index] = text::numbers::<2>(s);
    Checkpoint {
        byte_offset: byte_offset as usize,
        event_index: event_index as usize,
        time: text::signed(text::field(s, b'/', 2)),
        codec: state::read(text::field(s, b'/', 3)),
    }
}

// Those that `+` parts, at most 64, `-` for none.
pub fn read_all(s: &[u8]) -> Records {
    let mut all = marks();
    for n in 0..64 {
        let one = text::field(s, b'+', n);
        if text::at(one, 0) < b'0' {
            return Records { all, n };
        }
        all[n] = read(one);
    }
    Records { all, n: 64 }
}
