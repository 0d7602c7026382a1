// Seeks a time in a part of a recording: passes over the words before the first that takes the
// decoder's time to it. Slices by time start with it, since no word that is passed over has an event
// to hand over. specs/Seek.antt says how far it goes, specs/Laws.antt what that leaves of a slice.

#![tactic(auto)]

ghost use Rattle.std.specs.Prelude.{◌≡◌, ◌&&◌, ◌||◌, ◌≤◌, ◌^◌, ltb, length, drop};
ghost use Rattle.read_select.specs.Pass.{Able};
ghost use Rattle.read_fill.specs.Decode.{Bounded};
ghost use Rattle.read_seek.specs.Seek.{sought_of, Midway};

use crate::strides::strides;
use crate::walk::walk;
use evt_codec::Codec;
use evt_codec::word_loop::{Evt2Loop, Evt21Loop};

mod back;
mod evt3;
mod strides;
mod times;
mod walk;

// The bytes that were passed over, whether one of their words that carry events left the decoder
// before t0, and the decoder behind them.
#[derive(Clone, Copy)]
pub struct Sought {
    pub at: usize,
    pub stray: bool,
    pub codec: Codec,
}

// A place on the way, and the decoder there.
#[derive(Clone, Copy)]
pub struct Marked {
    pub at: usize,
    pub codec: Codec,
}

// As far as the decoder's time stays below t: in strides while it is well below, and word by word
// from there. `requires` is every caller's to show: it refuses a decoder out of range (10) and more
// than 2^30 bytes (4) first.
pub fn seek(bytes: &[u8], codec: Codec, t: u64) -> Sought
    requires able { Able (length bytes.now) codec }
    requires short { length bytes.now ≤ 2 ^ 30 }
    ensures { (result ≡ sought_of 0 t codec bytes.now) × Bounded (length (drop result.at bytes.now)) result.codec }
{
    let m = skip(bytes, codec, t);
    let at = m.at;
    let there = m.codec;
    let s = span(&bytes[at..], there, 0, t);
    let found = s.codec;
    Sought {
        at: at + s.at,
        stray: s.stray,
        codec: found,
    }
}

// As far as it stays below t1, and whether a word strayed from t0 on.
pub fn span(bytes: &[u8], codec: Codec, t0: u64, t1: u64) -> Sought
    requires able { Able (length bytes.now) codec }
    requires short { length bytes.now ≤ 2 ^ 30 }
    ensures { (result ≡ sought_of t0 t1 codec bytes.now) × Bounded (length (drop result.at bytes.now)) result.codec }
{
    match codec {
        Codec::Evt2(d) => walk(bytes, Evt2Loop::new(d), t0, t1),
        Codec::Evt21(d) => walk(bytes, Evt21Loop::new(d), t0, t1),
        Codec::Evt3(d) => evt3::span3(bytes, d, t0, t1),
    }
}

// From time word to time word, over no word that takes the time to t. How far is left open: what a
// seek finds from there is what it finds from the start.
fn skip(bytes: &[u8], codec: Codec, t: u64) -> Marked
    requires able { Able (length bytes.now) codec }
    requires short { length bytes.now ≤ 2 ^ 30 }
    ensures { Midway t codec bytes.now result.at result.codec }
{
    match codec {
        Codec::Evt2(d) => strides::<Evt2Loop>(bytes, d, t),
        Codec::Evt21(d) => strides::<Evt21Loop>(bytes, d.evt2(), t),
        Codec::Evt3(d) => evt3::skip3(bytes, d, t),
    }
}

// Whether a word strays, or one did so far: it carries events, and leaves the time before t0.
fn strays(was: bool, time: u64, t0: u64, carries: bool) -> bool
    ensures { result ≡ (was || (ltb time t0 && carries)) }
{
    was || (time < t0 && carries)
}
