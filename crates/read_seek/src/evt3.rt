// The loops over EVT3 words.
ghost use Rattle.std.specs.Prelude.{◌≡◌, true, false, ◌/◌, ◌≤◌, ◌^◌, length, drop};
ghost use Rattle.evt_types.specs.Layout.{word_size3};
ghost use Rattle.evt_codec.specs.declared.codec.Codec.TheVariants.{Evt3};
ghost use Rattle.evt3_decoder.specs.Range.{Bounded3, Paced3};
ghost use Rattle.read_fill.specs.Decode.{Bounded};
ghost use Rattle.read_seek.specs.Seek.{sought_of, reach3, Midway};
ghost use Rattle.read_seek.specs.Times.{spanned_of};
ghost use Rattle.read_seek.specs.Back.{put_behind};
ghost use Rattle.read_seek.specs.Loops.{Passing};

use crate::times::Times;
use crate::walk::walk;
use crate::{Marked, Sought, back, strays, times};
use evt_codec::Codec;
use evt_types::fields::bits;
use evt_types::words;
use evt3_decoder::{Decoder, widen};

// A loop tests for a word's last byte as `words::two_at` does, whose test then falls away. (A `for` over indices
// is no plainer: the one where a loop stops, or that it marks, is answered.)
const LAST_BYTE: usize = Decoder::WORD_SIZE - 1;

// Behind the words that were passed over.
#[derive(Clone, Copy)]
pub struct Spanned {
    pub at: usize,
    pub stray: bool,
    pub times: Times,
}

// From a started decoder, by its times alone.
fn pass(bytes: &[u8], d: Decoder, t0: u64, t1: u64) -> Spanned
    requires initialised { d.initialised ≡ true }
    requires bounded { Bounded3 (length bytes.now / word_size3) d }
    requires short { length bytes.now ≤ 2 ^ 30 }
    ensures { (result ≡ spanned_of (reach3 t0 t1 d bytes.now))
        × Bounded3 (length (drop result.at bytes.now) / word_size3) (reach3 t0 t1 d bytes.now).state }
{
    let mut c = times::of(d);
    let mut stray = false;
    let mut i: usize = 0;
    while i + LAST_BYTE < bytes.len() {
        let w = words::two_at(bytes, i);
        let next = times::tick(c, w);
        if t1 <= next.time {
            break;
        }
        let kind = bits(w, 12, 4);
        stray = strays(stray, next.time, t0, times::carries(kind));
        c = next;
        i += Decoder::WORD_SIZE;
    }
    Spanned {
        at: i,
        stray,
        times: c,
    }
}

// A started decoder behind the words of `front`: its times are known, the rest is looked for.
fn put(front: &[u8], d: Decoder, times: Times) -> Decoder
    ensures { result ≡ put_behind d front.now times }
{
    let y = back::row(front, d.y);
    let b = back::base(front, d.base_x, d.polarity);
    Decoder {
        initialised: true,
        time_base: times.base,
        time: times.time,
        y,
        base_x: b.x,
        polarity: b.p,
        high_loops: times.loops,
    }
}

pub fn span3(bytes: &[u8], d: Decoder, t0: u64, t1: u64) -> Sought
    requires paced { Paced3 (length bytes.now / word_size3) d }
    requires short { length bytes.now ≤ 2 ^ 30 }
    ensures { (result ≡ sought_of t0 t1 (Evt3 d) bytes.now) × Bounded (length (drop result.at bytes.now)) result.codec }
{
    if d.initialised {
        let r = pass(bytes, d, t0, t1);
        let at = r.at;
        let times = r.times;
        let decoder = put(&bytes[..at], d, times);
        return Sought {
            at,
            stray: r.stray,
            codec: Codec::Evt3(decoder),
        };
    }
    // Only the first record of an index has a decoder that isn't started.
    walk(bytes, widen(d), t0, t1)
}

// A place on the way, and the times there.
#[derive(Clone, Copy)]
pub struct Stood {
    pub at: usize,
    pub times: Times,
}

// From a started decoder to the last time word before t behind which no word reaches t without
// another: a word's time is less than GRAIN past the time word's.
fn stride(bytes: &[u8], d: Decoder, t: u64) -> Stood
    requires initialised { d.initialised ≡ true }
    requires bounded { Bounded3 (length bytes.now / word_size3) d }
    requires short { length bytes.now ≤ 2 ^ 30 }
    ensures { Passing 0 t d bytes.now result.times false result.at }
{
    let mut c = times::of(d);
    let mut at: usize = 0;
    let mut i: usize = 0;
    if t < d.time_base + Decoder::GRAIN {
        return Stood { at, times: c };
    }
    while i + LAST_BYTE < bytes.len() {
        let w = words::two_at(bytes, i);
        i += Decoder::WORD_SIZE;
        let kind = bits(w, 12, 4);
        if kind == 8 {
            let next = times::tick(c, w);
            if t <= next.time {
                break;
            }
            c = next;
            at = i;
            if t < next.time + Decoder::GRAIN {
                break;
            }
        }
    }
    Stood { at, times: c }
}

pub fn skip3(bytes: &[u8], d: Decoder, t: u64) -> Marked
    requires paced { Paced3 (length bytes.now / word_size3) d }
    requires short { length bytes.now ≤ 2 ^ 30 }
    ensures { Midway t (Evt3 d) bytes.now result.at result.codec }
{
    if d.initialised {
        let m = stride(bytes, d, t);
        let at = m.at;
        let times = m.times;
        let decoder = put(&bytes[..at], d, times);
        return Marked {
            at,
            codec: Codec::Evt3(decoder),
        };
    }
    Marked {
        at: 0,
        codec: Codec::Evt3(d),
    }
}
