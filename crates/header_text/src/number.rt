// Decimal numbers: the value, or the place from which on a text begins none.
ghost use Rattle.std.specs.Prelude.{◌≡◌, ◌+◌, ◌*◌, ◌^◌, ◌≤◌, ltb, cond, Some, None};
ghost use Rattle.header_text.specs.Number.{digits_at, read_of};

// The value of the digit d behind digits of value n, if it doesn't pass 2^64 - 1.
fn append_digit(n: usize, d: usize) -> Option<usize>
    requires { d ≤ 9 }
    ensures { result ≡ cond (ltb (n * 10 + d) (2 ^ 64)) (Some (n * 10 + d)) None }
{
    // Behind 18 digits or fewer any digit fits, and the value waits for two instructions a digit, where the checked sums take three.
    if n < usize::MAX / 10 {
        return Some(n * 10 + d);
    }
    n.checked_mul(10)?.checked_add(d)
}

// One or more digits, of which the first is at the place.
fn digits(s: &[u8], place: usize) -> Result<usize, usize>
    requires { place ≤ 1 }
    ensures { result ≡ digits_at place s.now }
{
    if s.is_empty() {
        return Err(place);
    }
    let mut n = 0;
    for (i, &b) in s.iter().enumerate() {
        if !b.is_ascii_digit() {
            return Err(place + i);
        }
        let Some(value) = append_digit(n, usize::from(b - b'0')) else {
            return Err(place + i); // digits behind it only raise the value
        };
        n = value;
    }
    Ok(n)
}

pub fn read_number(text: &[u8]) -> Result<usize, usize>
    ensures { result ≡ read_of text.now }
{
    match text {
        [] => Err(0),
        [b'+', unsigned @ ..] => digits(unsigned, 1),
        _ => digits(text, 0),
    }
}
