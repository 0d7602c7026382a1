// What of a decoder tells the times of triggers, what a word does to it, and the trigger of a word.
ghost use Rattle.std.specs.Prelude.{◌≡◌, ◌+◌, ◌*◌, ◌≤◌, length};
ghost use Rattle.evt_types.specs.Trigger.{shortest3};
ghost use Rattle.trigger_fill.specs.Form.{Paced, low_in, set_to, ticked, triggered};
ghost use Rattle.trigger_fill.specs.Calm.{late_of};
ghost use Rattle.trigger_fill.specs.Put.{Put};

use crate::form;
use crate::form::Format;
use evt_types::fields::bits;
use evt_types::{clock, trigger};

// A time word's type, in every encoding.
pub const TYPE: u64 = 8;

// In EVT2 and EVT2.1 the time is the base. `read_seek` has EVT3's alone, whose step takes no branch for
// speed: their definitions differ, and one struct for both would share three fields.
#[derive(Clone, Copy)]
pub struct Times {
    pub base: u64,
    pub time: u64,
    pub loops: u64,
}

// `Paced` stays a clause of each method: it speaks of a format too, and as a ghost field of `Times<E>` it
// would be part of what `result ≡ ..` compares.
impl Times {
    pub fn set_to(coarse: u64, loops: u64) -> Times
        ensures { result ≡ set_to coarse loops }
    {
        Times {
            base: coarse,
            time: coarse,
            loops,
        }
    }

    // A word to a started decoder.
    pub fn tick<E: Format>(self, word: u64) -> Times
        requires { Paced E.FORM 0 self }
        ensures { result ≡ ticked E.FORM self word }
    {
        let f = E::FORM;
        let kind = form::kind::<E>(word);
        let low = form::low::<E>(word);
        if kind == TYPE {
            let raw = low * f.grain;
            let n = clock::after(f.period, f.threshold, self.base, self.loops, raw);
            return Times::set_to(n.coarse, n.loops);
        }
        if kind == f.fine {
            return Times {
                time: self.base + low,
                ..self
            };
        }
        self
    }

    // Whether the time is late in its period: only then the next time word may count a loop.
    pub fn is_late<E: Format>(self) -> bool
        requires { Paced E.FORM 0 self }
        ensures { result ≡ late_of E.FORM self }
    {
        let f = E::FORM;
        self.loops * f.period + f.late <= self.base
    }

    // The coarse time of a time word that counts no loop.
    pub fn coarse<E: Format>(self, word: u64) -> u64
        requires { Paced E.FORM 0 self }
        ensures { result ≡ low_in E.FORM word * E.FORM.grain + self.loops * E.FORM.period }
    {
        let f = E::FORM;
        let raw = form::low::<E>(word) * f.grain;
        raw + self.loops * f.period
    }

    // Writes a word's trigger, if it has one, at index `at`, and answers the next index.
    pub fn put<E: Format>(
        self,
        word: u64,
        at: usize,
        ts: &mut [i64],
        ids: &mut [u8],
        values: &mut [u8],
    ) -> usize
        requires paced { Paced E.FORM 0 self }
        requires room { at + length (triggered E.FORM self word) ≤ shortest3 ts.old ids.old values.old }
        ensures { Put (triggered E.FORM self word) at result ts.old ids.old values.old
            ts.new ids.new values.new }
    {
        let f = E::FORM;
        let kind = form::kind::<E>(word);
        if kind == trigger::TYPE {
            let t = self.time + bits(word, f.from + 22, f.low);
            let id = bits(word, f.from + 8, f.channel);
            let value = bits(word, f.from, 1);
            let stamp = t as i64;
            ts[at] = stamp;
            ids[at] = id as u8;
            values[at] = value as u8;
            return at + 1;
        }
        at
    }
}
