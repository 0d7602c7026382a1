// Text: parts of a slice, fields between separators, numbers and bytes in hex.
// Nothing here has a `requires` or says that a text can't be read: a part that isn't there is empty, a
// number that isn't there is 0, and the answer then isn't the expected one.

ghost use Rattle.std.specs.Prelude.{◌<◌};

pub fn part<T>(s: &[T], from: usize, to: usize) -> &[T] {
    s.get(from..to).unwrap_or(&[])
}

// What follows the first k of the fields that single separators part.
pub fn from_field(s: &[u8], separator: u8, k: usize) -> &[u8] {
    s.splitn(k.saturating_add(1), |&b| b == separator)
        .nth(k)
        .unwrap_or(&[])
}

// Field k, counted from 0; empty if there are fewer.
pub fn field(s: &[u8], separator: u8, k: usize) -> &[u8] {
    s.split(|&b| b == separator).nth(k).unwrap_or(&[])
}

// The byte at i, or 0 behind the end.
pub fn at(s: &[u8], i: usize) -> u8 {
    s.get(i).copied().unwrap_or(0)
}

// Of decimal digits, a minus counting as nothing; not std's parse, which refuses what is no number.
fn value(digits: &[u8]) -> u64 {
    let mut n: u64 = 0;
    for &b in digits {
        if let (Some(tens), Some(digit)) = (n.checked_mul(10), char::from(b).to_digit(10)) {
            n = tens.wrapping_add(u64::from(digit));
        }
    }
    n
}

// The first N numbers of a text, 0 for those that it hasn't. Any byte but a digit and a minus parts two.
pub fn numbers<const N: usize>(s: &[u8]) -> [u64; N] {
    let mut numbers = [0; N];
    let digits = s.split(|&b| b != b'-' && !b.is_ascii_digit());
    for (n, digits) in numbers.iter_mut().zip(digits) {
        *n = value(digits);
    }
    numbers
}

// The first number of a text, 0 if there is none.
pub fn number(s: &[u8]) -> u64 {
    let [n] = numbers::<1>(s);
    n
}

// A number of 64 bits with its sign, a minus or none.
pub fn signed(s: &[u8]) -> i64 {
    let n = number(s);
    if at(s, 0) == b'-' {
        return n.wrapping_neg().cast_signed();
    }
    n.cast_signed()
}

// At most 65,535.
pub fn short(n: u64) -> u16 {
    u16::try_from(n).unwrap_or(u16::MAX)
}

// The value of a hex digit.
fn nibble(b: u8) -> u8
    ensures { result < 16 }
{
    if b <= b'9' { b % 16 } else { (b % 16 + 9) % 16 }
}

// Two lower case hex digits for each byte, and `-` for none; the bytes go to the start of `into`.
// Answers how many there are.
pub fn read_hex(s: &[u8], into: &mut [u8]) -> usize {
    for (byte, digits) in into.iter_mut().zip(s.chunks_exact(2)) {
        *byte = nibble(at(digits, 0)) * 16 + nibble(at(digits, 1));
    }
    s.len() / 2
}
