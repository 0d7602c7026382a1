// The loop over the notable words of a started decoder.
ghost use Rattle.std.specs.Prelude.{◌≡◌, ◌≤◌, length};
ghost use Rattle.evt_types.specs.Trigger.{HandedTriggers, shortest3};
ghost use Rattle.trigger_fill.specs.Form.{pulses_from};
ghost use Rattle.trigger_fill.specs.Pulse.{Place};

use crate::find::reach;
use crate::form::Format;
use crate::times::Times;

// Writes the triggers of the words from index `from` on. No `for`: `reach` finds each index.
pub fn pulses<E: Format>(
    bytes: &[u8],
    from: usize,
    start: Times,
    ts: &mut [i64],
    ids: &mut [u8],
    values: &mut [u8],
) -> usize
    requires place { Place E.FORM bytes.now start from }
    requires room { length (pulses_from E.FORM start from bytes.now) ≤ shortest3 ts.old ids.old values.old }
    ensures { (result ≡ length (pulses_from E.FORM start from bytes.now))
        × HandedTriggers (pulses_from E.FORM start from bytes.now) ts.old ids.old values.old
        ts.new ids.new values.new }
{
    let size = E::FORM.size;
    let mut n: usize = 0;
    let mut p = reach::<E>(bytes, from, start);
    while p.at + size <= bytes.len() {
        let w = E::word(bytes, p.at);
        n = p.times.put::<E>(w, n, &mut *ts, &mut *ids, &mut *values);
        let next = p.times.tick::<E>(w);
        p = reach::<E>(bytes, p.at + size, next);
    }
    n
}
