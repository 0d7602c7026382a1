// An index without its records, as text: `3:spacing,start,length,width,height,events`.
use prophesee_raw::RawSliceSource;
use std::io;
use std::io::Write;
use test_text::{options, text};

pub fn read(s: &[u8]) -> RawSliceSource {
    let [_, spacing, start, length, width, height, events] = text::numbers::<7>(s);
    RawSliceSource {
        encoding: options::read_encoding(s),
        spacing: spacing as usize,
        data_offset: start as usize,
        len: length as usize,
        width: width as usize,
        height: height as usize,
        n_events: events as usize,
    }
}

pub fn show(stdout: &mut impl Write, source: RawSliceSource) -> io::Result<()> {
    let encoding = u32::from(source.encoding);
    write!(
        stdout,
        "{encoding}:{},{},{},{},{},{}",
        source.spacing, source.data_offset, source.len, source.width, source.height, source.n_events
    )
}
