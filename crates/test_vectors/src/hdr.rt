// `ID hdr SIZE HEX`: `header::parse_header`. Answers `ok EVT3 BODYSTART WxH`, `-` for no size, or
// `refused N`.
use evt_types::{Refusal, SensorSize};
use header::Header;
use std::io;
use std::io::Write;
use test_text::{options, room, show, text};

fn show_answer(stdout: &mut impl Write, answer: Result<Header, Refusal>) -> io::Result<()> {
    match answer {
        Ok(h) => {
            write!(stdout, "ok ")?;
            show::encoding(stdout, h.encoding)?;
            write!(stdout, " {} ", h.data_offset)?;
            match h.sensor_size {
                None => write!(stdout, "-"),
                Some(SensorSize { width, height }) => write!(stdout, "{width}x{height}"),
            }
        }
        Err(why) => show::refusal(stdout, why),
    }
}

pub fn answer(stdout: &mut impl Write, case: &[u8]) -> io::Result<()> {
    let size = options::read_size(text::field(case, b' ', 2));
    let mut buffer: [u8; 4096] = room(0);
    let n = text::read_hex(text::field(case, b' ', 3), &mut buffer);
    show_answer(
        stdout,
        header::parse_header(text::part(&buffer, 0, n), size),
    )
}
