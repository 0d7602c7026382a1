// `ID resume STATE`: `write_resume::resume`, the writer behind a decoder.
// `ID resumew ENC BYTES`: `write_resume::resume_words`, the one behind words without a header.
// `ID resumer BYTES`: `write_resume::resume_raw`, the one behind a recording.
// `ID after BYTES`: `read_after::decoder_after_raw`, the decoder behind a recording's body.
// The first three answer `ok SINK`, or `refused N SINK` with the fresh writer that is told; the last
// answers `ok STATE`, or `refused N STATE` with an unstarted decoder of EVT2.
use crate::writer;
use evt_codec::Codec;
use evt_types::{Encoding, Refusal};
use std::io;
use std::io::Write;
use test_text::{given, options, room, show, state, text};
use write_resume::Resumed;

fn show_resumed(stdout: &mut impl Write, resumed: Resumed) -> io::Result<()> {
    match resumed.answer {
        Ok(()) => write!(stdout, "ok")?,
        Err(why) => show::refusal(stdout, why)?,
    }
    write!(stdout, " ")?;
    writer::show(stdout, resumed.sink)
}

fn show_after(stdout: &mut impl Write, after: Result<Codec, Refusal>) -> io::Result<()> {
    match after {
        Ok(_) => write!(stdout, "ok")?,
        Err(why) => show::refusal(stdout, why)?,
    }
    write!(stdout, " ")?;
    state::show(stdout, after.unwrap_or(Codec::new(Encoding::Evt2)))
}

fn behind_decoder(stdout: &mut impl Write, case: &[u8]) -> io::Result<()> {
    let codec = state::read(text::field(case, b' ', 2));
    show_resumed(stdout, write_resume::resume(codec))
}

fn behind_words(stdout: &mut impl Write, case: &[u8]) -> io::Result<()> {
    let encoding = options::read_encoding(text::field(case, b' ', 2));
    let mut buffer: [u8; 65536] = room(0);
    let n = given::read(text::field(case, b' ', 3), &mut buffer);
    show_resumed(
        stdout,
        write_resume::resume_words(text::part(&buffer, 0, n), encoding),
    )
}

fn behind_recording(stdout: &mut impl Write, case: &[u8]) -> io::Result<()> {
    let mut buffer: [u8; 65536] = room(0);
    let n = given::read(text::field(case, b' ', 2), &mut buffer);
    show_resumed(stdout, write_resume::resume_raw(text::part(&buffer, 0, n)))
}

pub fn after(stdout: &mut impl Write, case: &[u8]) -> io::Result<()> {
    let mut buffer: [u8; 65536] = room(0);
    let n = given::read(text::field(case, b' ', 2), &mut buffer);
    show_after(
        stdout,
        read_after::decoder_after_raw(text::part(&buffer, 0, n)),
    )
}

// By the byte behind `resume` in the command.
pub fn answer(stdout: &mut impl Write, case: &[u8], which: u8) -> io::Result<()> {
    match which {
        b'w' => behind_words(stdout, case),
        b'r' => behind_recording(stdout, case),
        _ => behind_decoder(stdout, case),
    }
}
