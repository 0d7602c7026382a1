// The times behind words that count no loop, looked for from their end back: the last words that set
// them are near.
ghost use Rattle.std.specs.Prelude.{◌≡◌, length};
ghost use Rattle.laws_stream.specs.Words.{words_of};
ghost use Rattle.trigger_fill.specs.Form.{Paced};
ghost use Rattle.trigger_fill.specs.Calm.{settled};
ghost use Rattle.trigger_fill.specs.Back.{Whole};

use crate::form::Format;
use crate::times::Times;
use crate::{form, times};

// The last time word's, or as it was.
fn base<E: Format>(front: &[u8], c: Times) -> u64
    requires paced { Paced E.FORM 0 c }
    requires whole { Whole E.FORM (length front.now) }
    ensures { result ≡ (settled E.FORM c (words_of E.FORM.size front.now)).base }
{
    let f = E::FORM;
    for k in (0..front.len() / f.size).rev() {
        let w = E::word(front, k * f.size);
        if form::kind::<E>(w) == times::TYPE {
            return c.coarse::<E>(w);
        }
    }
    c.base
}

pub fn across<E: Format>(front: &[u8], c: Times) -> Times
    requires paced { Paced E.FORM 0 c }
    requires whole { Whole E.FORM (length front.now) }
    ensures { result ≡ settled E.FORM c (words_of E.FORM.size front.now) }
{
    let f = E::FORM;
    for k in (0..front.len() / f.size).rev() {
        let at = k * f.size;
        let w = E::word(front, at);
        let kind = form::kind::<E>(w);
        if kind == times::TYPE {
            return Times::set_to(c.coarse::<E>(w), c.loops);
        }
        if kind == f.fine {
            let b = base::<E>(&front[..at], c);
            return Times {
                base: b,
                time: b + form::low::<E>(w),
                loops: c.loops,
            };
        }
    }
    c
}
