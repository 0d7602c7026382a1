// Words of bytes, the low byte first, and fields of a word, by bit position.
ghost use Rattle.std.specs.Prelude.{◌≡◌, ◌+◌, ◌*◌, ◌/◌, ◌%◌, ◌^◌, ◌<◌};

// The n bits of `word` from bit `lo` up.
pub fn bits(word: u64, lo: u64, n: u64) -> u64
    requires { (lo < 64) × (n < 64) }
    ensures { result ≡ word / 2 ^ lo % 2 ^ n }
{
    let mask = (1 << n) - 1;
    (word >> lo) & mask
}

pub fn word16(a: u8, b: u8) -> u16
    ensures { result ≡ a + b * 256 }
{
    u16::from_le_bytes([a, b])
}

// Of its halves.
pub fn word64(low: u32, high: u32) -> u64
    ensures { result ≡ low + high * 4294967296 }
{
    low as u64 + high as u64 * 4294967296
}

pub fn word32(a: u8, b: u8, c: u8, d: u8) -> u32
    ensures { result ≡ a + b * 256 + c * 65536 + d * 16777216 }
{
    u32::from_le_bytes([a, b, c, d])
}
