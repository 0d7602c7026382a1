// Sizes as the header writes them.
ghost use Rattle.std.specs.Prelude.{◌≡◌, ◌<◌, length, position};
ghost use Rattle.header_text.specs.Size.{geometry_of};
ghost use Rattle.header_text.specs.Text.{is_byte, trim_of};
ghost use Rattle.header_text.specs.Number.{number_of};
ghost use Rattle.header_text.specs.Parts.{halves_at};

use crate::number::read_number;
use crate::text::trim;
use evt_types::SensorSize;

fn place_of(c: u8, s: &[u8]) -> Option<usize>
    ensures { result ≡ position (is_byte c) s.now }
{
    s.iter().position(|&b| b == c)
}

fn half(s: &[u8]) -> Option<usize>
    ensures { result ≡ number_of (trim_of s.now) }
{
    read_number(trim(s)).ok()
}

// The size of a value that parts at its byte `n`, which the caller has found there.
fn size_at(s: &[u8], n: usize) -> Option<SensorSize>
    requires { n < length s.now }
    ensures { result ≡ halves_at n s.now }
{
    let width = half(&s[..n])?;
    let height = half(&s[n + 1..])?;
    Some(SensorSize { width, height })
}

// The size after a `geometry` line: at its first `x`, else at its first `X`, else as before.
pub fn geometry(s: &[u8], old: Option<SensorSize>) -> Option<SensorSize>
    ensures { result ≡ geometry_of s.now old }
{
    match place_of(b'x', s).or_else(|| place_of(b'X', s)) {
        Some(n) => size_at(s, n),
        None => old,
    }
}
