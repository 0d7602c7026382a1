// The strides over words of EVT2, and over words that hold one, as the upper halves of EVT 2.1's words are.
ghost use Rattle.std.specs.Prelude.{◌≡◌, refl, false, List, ℕ, ◌+◌, ◌/◌, ◌≤◌, ◌^◌, length};
ghost use Rattle.evt_types.specs.Ahead.{ahead};
ghost use Rattle.evt_codec.specs.declared.codec.Codec.TheVariants.{Evt2, Evt21};
ghost use Rattle.evt2_decoder.specs.declared.Evt2Decoder.{Evt2Decoder};
ghost use Rattle.evt21_decoder.specs.Evt21.{of2};
ghost use Rattle.read_seek.specs.Iteration.{Seeking, midway};
ghost use Rattle.read_seek.specs.Seek.{Midway};
ghost use Rattle.read_seek.specs.Skip.{Over2, over2, over21};

use crate::Marked;
use evt_codec::Codec;
use evt_codec::word_loop::{Evt2Loop, Evt21Loop};
use evt_types::fields::bits;
use evt_types::words;
use evt2_decoder::{Evt2Decoder, advance};
use evt21_decoder::{Evt21Decoder, of_evt2};

// An encoding whose decoder has the numbers of EVT2's, and whose words do to them what the word of EVT2 in each does.
pub trait HoldsEvt2 {
    ghost over: { Over2 };

    ghost WORD_SIZE: { ℕ };

    const WORD_SIZE: usize;

    // The word of EVT2 in the word at index i.
    fn half_at(bytes: &[u8], i: usize) -> u64
        requires { i + over.reader.size ≤ length bytes.now }
        ensures { result ≡ over.half (ahead over.reader.size bytes.now i) };

    fn codec(d: Evt2Decoder) -> Codec
        ensures { result ≡ over.reader.codec (over.of d) };

    ghost size: { WORD_SIZE ≡ over.reader.size };

    ghost found: { (t : ℕ) (d s : Evt2Decoder) (bytes : List ℕ) (i : ℕ) → Seeking over.reader 0 t (over.of d) bytes (over.of s) false i
        → Midway t (over.reader.codec (over.of d)) bytes i (over.reader.codec (over.of s)) };
}

impl HoldsEvt2 for Evt2Loop {
    ghost over = { over2 };

    ghost WORD_SIZE = { 4 };

    ghost size = { refl };

    ghost found = { λ t d s bytes i u. midway t (Evt2 d) bytes u };

    const WORD_SIZE: usize = Evt2Decoder::WORD_SIZE;

    fn half_at(bytes: &[u8], i: usize) -> u64 {
        words::four_at(bytes, i)
    }

    fn codec(d: Evt2Decoder) -> Codec {
        Codec::Evt2(d)
    }
}

impl HoldsEvt2 for Evt21Loop {
    ghost over = { over21 };

    ghost WORD_SIZE = { 8 };

    ghost size = { refl };

    ghost found = { λ t d s bytes i u. midway t (Evt21 (of2 d)) bytes u };

    const WORD_SIZE: usize = Evt21Decoder::WORD_SIZE;

    fn half_at(bytes: &[u8], i: usize) -> u64 {
        words::eight_at(bytes, i) >> 32
    }

    fn codec(d: Evt2Decoder) -> Codec {
        Codec::Evt21(of_evt2(d))
    }
}

// To the last time word before t behind which no word reaches t without another: a word's time is
// less than GRAIN past the time word's.
pub fn strides<E: HoldsEvt2>(bytes: &[u8], d: Evt2Decoder, t: u64) -> Marked
    requires bounded { E.over.reader.Bounded (length bytes.now / E.over.reader.size) (E.over.of d) }
    requires short { length bytes.now ≤ 2 ^ 30 }
    ensures { Midway t (E.over.reader.codec (E.over.of d)) bytes.now result.at result.codec }
{
    let size = E::WORD_SIZE;
    let mut s = d;
    let mut at: usize = 0;
    let mut i: usize = 0;
    if t < d.time_high + Evt2Decoder::GRAIN {
        return Marked {
            at: 0,
            codec: E::codec(d),
        };
    }
    // The test is for a word's last byte, as the functions of `words` test, whose own test then falls away.
    // (A `for` over indices is no plainer: they go on inside the loop, and are marked there.)
    while i + (size - 1) < bytes.len() {
        let w = E::half_at(bytes, i);
        i += size;
        let kind = bits(w, 28, 4);
        if kind == 8 {
            let next = advance(s, w).next;
            if t <= next.time {
                break;
            }
            s = next;
            at = i;
            if t < next.time + Evt2Decoder::GRAIN {
                break;
            }
        }
    }
    Marked {
        at,
        codec: E::codec(s),
    }
}
