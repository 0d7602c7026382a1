// What a case gives besides its bytes: `-` or `WxH`, `-` or a limit, `2`, `21` or `3`.
use crate::text;
use evt_types::{Encoding, SensorSize};

pub fn read_size(s: &[u8]) -> Option<SensorSize> {
    if text::at(s, 0) == b'-' {
        return None;
    }
    let [width, height] = text::numbers::<2>(s);
    Some(SensorSize {
        width: width as usize,
        height: height as usize,
    })
}

pub fn read_limit(s: &[u8]) -> Option<usize> {
    if text::at(s, 0) == b'-' {
        return None;
    }
    Some(text::number(s) as usize)
}

// By the number that a text begins with.
pub fn read_encoding(s: &[u8]) -> Encoding {
    match text::number(s) {
        2 => Encoding::Evt2,
        21 => Encoding::Evt21,
        _ => Encoding::Evt3,
    }
}
