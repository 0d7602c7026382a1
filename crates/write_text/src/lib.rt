// Texts and decimal numbers, stored into a buffer that the caller lends, as far as it reaches.
// Proved: each function stores its text from `at` on, changes nothing else, and answers where the
// text ends. specs/Text.antt says what a number's digits are, specs/Stored.antt what stored means.

#![tactic(auto)]

ghost use Rattle.std.specs.Prelude.{◌+◌, ◌^◌, ◌<◌, length};
ghost use Rattle.write_text.specs.Text.{decimal};
ghost use Rattle.write_text.specs.Stored.{Stored};

// A text. `requires`: where it ends is a usize.
pub fn put_text(out: &mut [u8], at: usize, s: &[u8]) -> usize
    requires { at + length s.now < 2 ^ 64 }
    ensures { Stored (length s.now) out.old at s.now result out.new }
{
    for (i, &b) in s.iter().enumerate() {
        write_buffer::put8(&mut *out, at + i, b);
    }
    at + s.len()
}

// The digits of n, without leading zeros. `requires`: there are at most 20, so where they end is a
// usize.
pub fn put_decimal(out: &mut [u8], at: usize, n: u64) -> usize
    requires { at < 2 ^ 63 }
    ensures { Stored 20 out.old at (decimal n) result out.new }
{
    if n < 10 {
        write_buffer::put8(&mut *out, at, 48 + n as u8);
        at + 1
    } else {
        let end = put_decimal(&mut *out, at, n / 10);
        write_buffer::put8(&mut *out, end, 48 + (n % 10) as u8);
        end + 1
    }
}
