// A writer as text: `3:sent,count,last,high,low,row`, with 1 for a header that was sent and `-` for
// nothing; or `3n`, a fresh one, or `3h`, a fresh one that sends a header. EVT2 has 2 for 3, EVT2.1
// has 21.
use std::io;
use std::io::Write;
use test_text::{options, text};
use write_append::RawEventSink;
use write_buffer::EncoderState;

fn read_half(s: &[u8], k: usize) -> Option<u64> {
    let half = text::field(s, b',', k);
    if text::at(half, 0) == b'-' {
        return None;
    }
    Some(text::number(half))
}

// `-` has no second byte.
fn read_last(s: &[u8]) -> Option<i64> {
    if s.len() == 1 && text::at(s, 0) == b'-' {
        return None;
    }
    Some(text::signed(s))
}

pub fn read(s: &[u8]) -> RawEventSink {
    let version = options::read_encoding(s);
    let state = text::from_field(s, b':', 1);
    if state.is_empty() {
        return RawEventSink::to_writer(version, s.contains(&b'h'));
    }
    RawEventSink {
        version,
        header_written: text::at(state, 0) == b'1',
        n_events: text::number(text::field(s, b',', 1)) as usize,
        last_t: read_last(text::field(s, b',', 2)),
        state: EncoderState {
            time_high: read_half(s, 3),
            time_low: read_half(s, 4),
            y: read_half(s, 5),
        },
    }
}

fn show_half(stdout: &mut impl Write, half: Option<u64>) -> io::Result<()> {
    match half {
        None => write!(stdout, ",-"),
        Some(n) => write!(stdout, ",{n}"),
    }
}

pub fn show(stdout: &mut impl Write, sink: RawEventSink) -> io::Result<()> {
    let encoding = u32::from(sink.version);
    let sent = u8::from(sink.header_written);
    write!(stdout, "{encoding}:{sent},{}", sink.n_events)?;
    match sink.last_t {
        None => write!(stdout, ",-")?,
        Some(t) => write!(stdout, ",{t}")?,
    }
    show_half(stdout, sink.state.time_high)?;
    show_half(stdout, sink.state.time_low)?;
    show_half(stdout, sink.state.y)
}
