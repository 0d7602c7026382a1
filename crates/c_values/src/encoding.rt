// An encoding as a number: 2, 21 or 3.
ghost use Rattle.std.specs.Prelude.{◌≡◌};
ghost use Rattle.c_values.specs.{Encoding.is_known, Encoding.encoding_of, Encoding.behind_too_long, Encoding.coded};

use evt_types::{Encoding, MOST_BYTES, Refusal};

pub fn is_known(n: u32) -> bool
    ensures { result ≡ is_known n }
{
    Encoding::try_from(n).is_ok()
}

// Of a known number; else EVT2.
pub fn encoding_of(n: u32) -> Encoding
    ensures { result ≡ encoding_of n }
{
    Encoding::try_from(n).unwrap_or(Encoding::Evt2)
}

// The refusal of n bytes: 4, or else the one given.
pub fn behind_too_long(n: usize, refusal: Refusal) -> Refusal
    ensures { result ≡ behind_too_long n refusal }
{
    if MOST_BYTES < n {
        Refusal::TooLong
    } else {
        refusal
    }
}

// The encoding of so many bytes: 2 where the number isn't known, behind 4.
pub fn coded(n: u32, bytes: usize) -> Result<Encoding, Refusal>
    ensures { result ≡ coded n bytes }
{
    Encoding::try_from(n).map_err(|refusal| behind_too_long(bytes, refusal))
}
