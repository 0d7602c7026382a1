// What a header and a reading answer, in numbers.
ghost use Rattle.std.specs.Prelude.{◌≡◌};
ghost use Rattle.header.specs.Header.{told_header};
ghost use Rattle.read_rules.specs.Read.{told_read};
ghost use Rattle.c_values.specs.{Reading.parsed_of, Reading.reading_of};

use crate::refusal::count_of;
use evt_types::{Refusal, SensorSize};
use header::Header;
use read::Reading;

// `refusal` 0: parsed, and the others tell what; `sized` 1: the size is known. Else the number in the
// table of docs/RULES.md.
#[repr(C)]
#[derive(Clone, Copy, Default)]
pub struct PropheseeHeader {
    pub refusal: u32,
    pub encoding: u32,
    pub data_offset: usize,
    pub width: usize,
    pub height: usize,
    pub sized: u8,
}

// `refusal` 0: read, and `encoding` (2, 21 or 3), `width`, `height` and `count` tell what. Else the
// number in the table of docs/RULES.md, `told` being the count that a 5 tells.
#[repr(C)]
#[derive(Clone, Copy, Default)]
pub struct PropheseeReading {
    pub refusal: u32,
    pub encoding: u32,
    pub told: usize,
    pub width: usize,
    pub height: usize,
    pub count: usize,
}

impl From<Result<Reading, Refusal>> for PropheseeReading {
    ghost from_gives = { λ a r. r ≡ reading_of (told_read a) };

    fn from(answer: Result<Reading, Refusal>) -> PropheseeReading {
        match answer {
            Ok(r) => PropheseeReading {
                refusal: 0,
                encoding: u32::from(r.encoding),
                told: 0,
                width: r.width,
                height: r.height,
                count: r.count,
            },
            Err(r) => PropheseeReading {
                refusal: u32::from(r),
                told: count_of(r),
                ..PropheseeReading::default()
            },
        }
    }
}

fn header_numbers(h: Header) -> PropheseeHeader
    ensures { result ≡ parsed_of (told_header (Ok h)) }
{
    let unsized_header = PropheseeHeader {
        encoding: u32::from(h.encoding),
        data_offset: h.data_offset,
        ..PropheseeHeader::default()
    };
    match h.sensor_size {
        None => unsized_header,
        Some(SensorSize { width, height }) => PropheseeHeader {
            width,
            height,
            sized: 1,
            ..unsized_header
        },
    }
}

impl From<Result<Header, Refusal>> for PropheseeHeader {
    ghost from_gives = { λ a h. h ≡ parsed_of (told_header a) };

    fn from(answer: Result<Header, Refusal>) -> PropheseeHeader {
        match answer {
            Ok(h) => header_numbers(h),
            Err(r) => PropheseeHeader {
                refusal: u32::from(r),
                ..PropheseeHeader::default()
            },
        }
    }
}
