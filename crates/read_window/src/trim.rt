// Which events of one word a window hands over, numbered from k on: `single` of a word with one event,
// `whole` tells whether it is all of them, and `pick` goes bit by bit. The loops keep all numbers small
// enough that no sum wraps.
ghost use Rattle.std.specs.Prelude.{◌≡◌, ◌+◌, ◌<◌, ◌^◌};
ghost use Rattle.evt_types.specs.Event.{Narrow};
ghost use Rattle.read_window.specs.Window.{is_within, is_spanned, is_stopped};
ghost use Rattle.read_window.specs.Trim.{Picked, PickedBits, is_whole, is_skipped};

use crate::Window;
use evt_types::num::{inside, saturating_add};
use evt_types::vector::Vector;

// The bits of the events that are handed over, and how many events are numbered besides.
#[derive(Clone, Copy)]
pub struct Trimmed {
    pub mask: u64,
    pub extra: u64,
}

// The tests of this file go one inside the other. (Tried: by `&&` and `||`; a survey takes 1, 8 and 2
// instructions a word more, over EVT2, EVT2.1 and EVT3.)
fn within(win: Window, t: u64) -> bool
    ensures { result ≡ is_within win t }
{
    if win.t0 <= t { t < win.t1 } else { false }
}

fn spans(win: Window, k: u64, t: u64) -> bool
    ensures { result ≡ is_spanned win k t }
{
    if win.n0 <= k {
        if k < win.n1 { within(win, t) } else { false }
    } else {
        false
    }
}

// Whether a pass stops after a word: the next number reaches n1, or the decoder is started and its
// time reaches t1.
pub fn stopped(win: Window, k: u64, started: bool, time: u64) -> bool
    ensures { result ≡ is_stopped win k started time }
{
    if win.n1 <= k {
        return true;
    }
    if started { win.t1 <= time } else { false }
}

// Each event of v is handed over.
pub fn whole(v: Vector, win: Window, k: u64) -> bool
    requires narrow { Narrow v }
    requires small { k < 2 ^ 63 }
    ensures { result ≡ is_whole v win k }
{
    if v.y < win.height {
        if v.x + 32 <= win.width {
            if win.n0 <= k {
                if k + 32 <= win.n1 {
                    within(win, v.t)
                } else {
                    false
                }
            } else {
                false
            }
        } else {
            false
        }
    } else {
        false
    }
}

// Each event of v, whose row is inside, is numbered, and none is handed over.
fn skips(v: Vector, win: Window, k: u64) -> bool
    requires narrow { Narrow v }
    requires small { k < 2 ^ 63 }
    ensures { result ≡ is_skipped v win k }
{
    if v.x + 32 <= win.width {
        if within(win, v.t) {
            k + 32 <= win.n0
        } else {
            true
        }
    } else {
        false
    }
}

// What the window leaves of v where an edge of it may be, bit by bit: the lowest set bit goes first, and
// is then cleared. That is rare. It is recursive, since a loop here is inlined into the loops over
// words and makes them slower.
pub fn pick(v: Vector, win: Window, k: u64) -> Trimmed
    requires { (Narrow v) × (k + v.mask < 2 ^ 63) }
    ensures { PickedBits v win k result }
{
    let mask = v.mask;
    if mask == 0 {
        return Trimmed { mask: 0, extra: 0 };
    }
    if win.height <= v.y {
        return Trimmed { mask: 0, extra: 0 };
    }
    if skips(v, win, k) {
        return Trimmed {
            mask: 0,
            extra: u64::count_ones(mask) as u64,
        };
    }
    let rest = Vector {
        mask: mask & (mask - 1),
        ..v
    };
    let i = u64::trailing_zeros(mask) as u64;
    if win.width <= saturating_add(v.x, i) {
        return pick(rest, win, k);
    }
    let r = pick(rest, win, k + 1);
    if spans(win, k, v.t) {
        Trimmed {
            mask: r.mask | (1 << i),
            extra: r.extra,
        }
    } else {
        Trimmed {
            mask: r.mask,
            extra: r.extra + 1,
        }
    }
}

// What the window leaves of v where the lowest bit alone is set, as in EVT2.
pub fn single(v: Vector, win: Window, k: u64) -> Trimmed
    requires { (v.mask ≡ 1) × (v.x < 65536) }
    ensures { Picked v win k result }
{
    if !inside(v.x, v.y, win.width, win.height) {
        Trimmed { mask: 0, extra: 0 }
    } else if spans(win, k, v.t) {
        Trimmed { mask: 1, extra: 0 }
    } else {
        Trimmed { mask: 0, extra: 1 }
    }
}
