// Words of bytes, the low byte first: two bytes, four or eight of a slice in one call. It is proved that
// they are the words of specs/Ahead.antt, 0 where none is whole; `Words` of the crate `laws_stream` says
// what the words of some bytes are.
ghost use Rattle.std.specs.Prelude.{◌≡◌, ◌+◌, ◌*◌, ◌<◌, ◌^◌};
ghost use Rattle.evt_types.specs.Ahead.{ahead};

use crate::fields::{word16, word32, word64};

pub fn two(a: u8, b: u8) -> u64
    ensures { result ≡ a + b * 256 }
{
    u64::from(word16(a, b))
}

pub fn four(a: u8, b: u8, c: u8, d: u8) -> u64
    ensures { result ≡ a + b * 256 + c * 65536 + d * 16777216 }
{
    u64::from(word32(a, b, c, d))
}

// The word at index i, 0 if none is whole there. A loop that has its word from the iteration before
// loads it in one instruction; from its own bytes it would load each field.
pub fn two_at(bytes: &[u8], i: usize) -> u64
    requires { i + 1 < 2 ^ 64 }
    ensures { result ≡ ahead 2 bytes.now i }
{
    if i + 1 < bytes.len() {
        two(bytes[i], bytes[i + 1])
    } else {
        0
    }
}

pub fn four_at(bytes: &[u8], i: usize) -> u64
    requires { i + 3 < 2 ^ 64 }
    ensures { result ≡ ahead 4 bytes.now i }
{
    if i + 3 < bytes.len() {
        four(bytes[i], bytes[i + 1], bytes[i + 2], bytes[i + 3])
    } else {
        0
    }
}

pub fn eight_at(bytes: &[u8], i: usize) -> u64
    requires { i + 7 < 2 ^ 64 }
    ensures { result ≡ ahead 8 bytes.now i }
{
    if i + 7 < bytes.len() {
        let low = word32(bytes[i], bytes[i + 1], bytes[i + 2], bytes[i + 3]);
        let high = word32(bytes[i + 4], bytes[i + 5], bytes[i + 6], bytes[i + 7]);
        word64(low, high)
    } else {
        0
    }
}
