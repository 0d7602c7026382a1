// What one word adds to a pass, for the loops of every encoding.
ghost use Rattle.std.specs.Prelude.{◌≡◌, ◌+◌, ◌-◌, ◌≤◌, ◌<◌, ◌^◌};
ghost use Rattle.evt_types.specs.Event.{Narrow};
ghost use Rattle.read_window.specs.Trim.{Picked};
ghost use Rattle.read_window.specs.Trim as T;
ghost use Rattle.read_select.specs.Word.{Notable, noted};

use evt_codec::WordLoop;
use evt_codec::word_loop::{Evt2Loop, Evt21Loop};
use evt_types::vector::Vector;
use evt3_decoder::WideDecoder;
use read_window::extent::Extent;
use read_window::trim::Trimmed;
use read_window::{Window, extent, trim};

// What a survey has noted: the next event's number, how many events were handed over, and their
// extent.
#[derive(Clone, Copy)]
pub struct Notes {
    pub number: u64,
    pub count: usize,
    pub latest: u64,
    pub width: u64,
    pub height: u64,
}

// v with another mask.
pub fn masked(v: Vector, mask: u64) -> Vector
    ensures { result ≡ T.masked v mask }
{
    Vector {
        x: v.x,
        y: v.y,
        t: v.t,
        p: v.p,
        mask,
    }
}

// A decoder whose events a window trims, in the way that measured fastest for its encoding.
pub trait Trims: WordLoop {
    // What the window leaves of a word's events.
    fn cut(v: Vector, win: Window, k: u64) -> Trimmed
        requires narrow { Narrow v }
        requires few { v.mask < 2 ^ Self.reader.most }
        requires small { k < 2 ^ 62 + 2 ^ 61 }
        ensures { Picked v win k result };
}

// At most the lowest bit is set.
impl Trims for Evt2Loop {
    #[inline(always)]
    fn cut(v: Vector, win: Window, k: u64) -> Trimmed {
        if v.mask == 0 {
            return Trimmed { mask: 0, extra: 0 };
        }
        trim::single(v, win, k)
    }
}

// A bit alone is seldom the lowest.
impl Trims for Evt21Loop {
    #[inline(always)]
    fn cut(v: Vector, win: Window, k: u64) -> Trimmed {
        if v.mask == 0 {
            return Trimmed { mask: 0, extra: 0 };
        }
        if trim::whole(v, win, k) {
            return Trimmed {
                mask: v.mask,
                extra: 0,
            };
        }
        trim::pick(v, win, k)
    }
}

impl Trims for WideDecoder {
    // Inlined: as a call it costs a third more.
    #[inline(always)]
    fn cut(v: Vector, win: Window, k: u64) -> Trimmed {
        if v.mask == 0 {
            return Trimmed { mask: 0, extra: 0 };
        }
        if v.mask == 1 {
            return trim::single(v, win, k);
        }
        if trim::whole(v, win, k) {
            return Trimmed {
                mask: v.mask,
                extra: 0,
            };
        }
        trim::pick(v, win, k)
    }
}

// The next event's number, after a word of which n - was events were handed over and `extra` more
// have a number.
pub fn after(k: u64, was: usize, n: usize, extra: u64) -> u64
    requires { (was ≤ n) × (k + (n - was) + extra < 2 ^ 64) }
    ensures { result ≡ k + (n - was) + extra }
{
    k + (n - was) as u64 + extra
}

// The notes with those events of v that r leaves.
pub fn note(t: Notes, v: Vector, r: Trimmed) -> Notes
    requires { Notable t v r }
    ensures { result ≡ noted t v r }
{
    let m = u64::count_ones(r.mask);
    let before = Extent {
        latest: t.latest,
        width: t.width,
        height: t.height,
    };
    let seen = extent::see(before, masked(v, r.mask));
    Notes {
        number: t.number + m as u64 + r.extra,
        count: t.count + m as usize,
        latest: seen.latest,
        width: seen.width,
        height: seen.height,
    }
}
