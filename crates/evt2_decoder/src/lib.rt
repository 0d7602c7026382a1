// EVT2: words of 32 bits. An event word carries its own coordinates and the low six bits of its time.

#![tactic(auto)]

ghost use Rattle.std.specs.Prelude.{◌≡◌};
ghost use Rattle.evt2_decoder.specs.Evt2.{fresh2, step2, vector2, Sane2, in_range2};
ghost use Rattle.evt2_decoder.specs.Decode.{Decoded2};
ghost use Rattle.evt2_decoder.specs.Triggers.{trigger2};
ghost use Rattle.evt_types.specs.Owed.{Owed};
ghost use Rattle.evt_types.specs.Trigger.{trigger_outcome, OwedTrigger};

use evt_types::fields::bits;
use evt_types::vector::Vector;
use evt_types::{Decoded, EventVector, RawTrigger, Refusal, Step, clock, trigger, vector};

#[derive(Clone, Copy, Debug, PartialEq, Eq)]
pub struct Evt2Decoder {
    pub initialised: bool,
    pub time_high: u64,
    pub time: u64,
    pub high_loops: u64,
}

impl Evt2Decoder {
    pub const WORD_SIZE: usize = 4;

    // Microseconds of a unit of coarse time.
    pub const GRAIN: u64 = 64;

    pub const PERIOD: u64 = 17179869184;

    pub const THRESHOLD: u64 = 16106127360;

    pub const MOST_LOOPS: u64 = 134217728;

    pub fn new() -> Self
        ensures { result ≡ fresh2 }
    {
        Self {
            initialised: false,
            time_high: 0,
            time: 0,
            high_loops: 0,
        }
    }

    pub fn in_range(self) -> bool
        ensures { result ≡ in_range2 self }
    {
        if self.initialised {
            return clock::in_range(
                Self::PERIOD,
                Self::GRAIN,
                Self::MOST_LOOPS,
                self.time_high,
                self.time,
                self.high_loops,
            );
        }
        self.time_high == 0 && self.time == 0 && self.high_loops == 0
    }

    // One word, by value. A decoder out of range is refused, and comes back as it was.
    pub fn step(self, word: u32) -> Decoded<Self>
        ensures { Decoded2 self word result }
    {
        if self.in_range() {
            let s = advance(self, word as u64);
            return Decoded {
                next: s.next,
                answer: Ok(vector::narrow(s.events)),
            };
        }
        Decoded {
            next: self,
            answer: Err(Refusal::StateOutOfRange),
        }
    }

    // One word, into a lent decoder. Out of range, it is refused and left as it was.
    pub fn decode(&mut self, word: u32) -> Result<EventVector, Refusal>
        ensures { Owed (in_range2 self.old) self.old (step2 self.old word)
            (vector2 self.old word) self.new result }
    {
        let s = (*self).step(word);
        *self = s.next;
        s.answer
    }

    // The trigger that a word carries, if it does. No word's trigger alters the decoder, so a by-value
    // method is enough. A decoder out of range is refused.
    pub fn trigger(self, word: u32) -> Result<Option<RawTrigger>, Refusal>
        ensures { OwedTrigger (trigger_outcome (in_range2 self) (trigger2 self word)) result }
    {
        if self.in_range() {
            let w = word as u64;
            let t = self.time_high + bits(w, 22, 6);
            return Ok(trigger::of_word(
                self.initialised,
                bits(w, 28, 4),
                t,
                bits(w, 8, 5),
                bits(w, 0, 1),
            ));
        }
        Err(Refusal::StateOutOfRange)
    }
}

// One word, for loops: they keep the decoder's numbers small enough that no sum wraps. It is no
// method, since nothing that `prophesee_raw` passes on has a `requires`.
pub fn advance(decoder: Evt2Decoder, word: u64) -> Step<Evt2Decoder>
    requires { Sane2 decoder }
    ensures { (result.next ≡ step2 decoder word) × (result.events ≡ vector2 decoder word) }
{
    let kind = bits(word, 28, 4);
    let mut d = decoder;
    let mut v = vector::none();
    match kind {
        8 => {
            let raw = bits(word, 0, 28) * Evt2Decoder::GRAIN;
            let c = clock::after(
                Evt2Decoder::PERIOD,
                Evt2Decoder::THRESHOLD,
                d.time_high,
                d.high_loops,
                raw,
            );
            d.initialised = true;
            d.time_high = c.coarse;
            d.time = c.coarse;
            d.high_loops = c.loops;
        }
        0 | 1 => {
            if d.initialised {
                let t = d.time_high + bits(word, 22, 6);
                d.time = t;
                v = Vector {
                    x: bits(word, 11, 11),
                    y: bits(word, 0, 11),
                    t,
                    p: kind,
                    mask: 1,
                };
            }
        }
        2..=7 | 9..=15 => {}
        _ => {}
    }
    Step { next: d, events: v }
}
