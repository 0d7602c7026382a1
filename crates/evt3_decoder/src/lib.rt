// EVT3: words of 16 bits. A word sets the row, the base column or the time, or carries events.

#![tactic(auto)]

ghost use Rattle.std.specs.Prelude.{◌≡◌};
ghost use Rattle.evt3_decoder.specs.Evt3.{fresh3, step3, vector3, Sane3, Slim, widened, slimmed, in_range3, is_zero, single, several};
ghost use Rattle.evt3_decoder.specs.Decode.{Decoded3};
ghost use Rattle.evt3_decoder.specs.Triggers.{trigger3};
ghost use Rattle.evt_types.specs.Owed.{Owed};
ghost use Rattle.evt_types.specs.Trigger.{trigger_outcome, OwedTrigger};

use evt_types::fields::bits;
use evt_types::num::saturating_add;
use evt_types::vector::Vector;
use evt_types::{Decoded, EventVector, RawTrigger, Refusal, Step, clock, trigger, vector};

#[derive(Clone, Copy, Debug, PartialEq, Eq)]
pub struct Decoder {
    pub initialised: bool,
    pub time_base: u64,
    pub time: u64,
    pub y: u16,
    pub base_x: u16,
    pub polarity: bool,
    pub high_loops: u64,
}

// The decoder inside a loop: all numbers have 64 bits, so that a step is inlined.
#[derive(Clone, Copy)]
pub struct WideDecoder {
    pub initialised: bool,
    pub time_base: u64,
    pub time: u64,
    pub y: u64,
    pub base_x: u64,
    pub polarity: bool,
    pub high_loops: u64,
}

impl Decoder {
    pub const WORD_SIZE: usize = 2;

    // Microseconds of a unit of coarse time.
    pub const GRAIN: u64 = 4096;

    pub const PERIOD: u64 = 16777216;

    pub const THRESHOLD: u64 = 16732160;

    pub const MOST_LOOPS: u64 = 268435456;

    pub fn new() -> Self
        ensures { result ≡ fresh3 }
    {
        Self {
            initialised: false,
            time_base: 0,
            time: 0,
            y: 0,
            base_x: 0,
            polarity: false,
            high_loops: 0,
        }
    }

    pub fn in_range(self) -> bool
        ensures { result ≡ in_range3 self }
    {
        if self.initialised {
            return clock::in_range(
                Self::PERIOD,
                Self::GRAIN,
                Self::MOST_LOOPS,
                self.time_base,
                self.time,
                self.high_loops,
            ) && self.y <= 2047;
        }
        self.is_zero()
    }

    // Whether every number of an unstarted decoder is 0.
    fn is_zero(self) -> bool
        ensures { result ≡ is_zero self }
    {
        self.time_base == 0
            && self.time == 0
            && self.y == 0
            && self.base_x == 0
            && !self.polarity
            && self.high_loops == 0
    }

    // One word, by value. A decoder out of range is refused, and comes back as it was.
    pub fn step(self, word: u16) -> Decoded<Self>
        ensures { Decoded3 self word result }
    {
        if self.in_range() {
            let s = widen(self).advance(word as u64);
            return Decoded {
                next: s.next.slim(),
                answer: Ok(vector::narrow(s.events)),
            };
        }
        Decoded {
            next: self,
            answer: Err(Refusal::StateOutOfRange),
        }
    }

    // One word, into a lent decoder. Out of range, it is refused and left as it was.
    pub fn decode(&mut self, word: u16) -> Result<EventVector, Refusal>
        ensures { Owed (in_range3 self.old) self.old (step3 self.old word)
            (vector3 self.old word) self.new result }
    {
        let s = (*self).step(word);
        *self = s.next;
        s.answer
    }

    // The trigger that a word carries, if it does. No word's trigger alters the decoder, so a by-value
    // method is enough. A decoder out of range is refused.
    pub fn trigger(self, word: u16) -> Result<Option<RawTrigger>, Refusal>
        ensures { OwedTrigger (trigger_outcome (in_range3 self) (trigger3 self word)) result }
    {
        if self.in_range() {
            let w = word as u64;
            return Ok(trigger::of_word(
                self.initialised,
                bits(w, 12, 4),
                self.time,
                bits(w, 8, 4),
                bits(w, 0, 1),
            ));
        }
        Err(Refusal::StateOutOfRange)
    }
}

// The decoder for loops. It is no method, since `prophesee_raw` passes on none of `WideDecoder`.
pub fn widen(d: Decoder) -> WideDecoder
    ensures { (result ≡ widened d) × Slim (widened d) }
{
    WideDecoder {
        initialised: d.initialised,
        time_base: d.time_base,
        time: d.time,
        y: d.y as u64,
        base_x: d.base_x as u64,
        polarity: d.polarity,
        high_loops: d.high_loops,
    }
}

impl WideDecoder {
    pub fn slim(self) -> Decoder
        requires { Slim self }
        ensures { result ≡ slimmed self }
    {
        Decoder {
            initialised: self.initialised,
            time_base: self.time_base,
            time: self.time,
            y: self.y as u16,
            base_x: self.base_x as u16,
            polarity: self.polarity,
            high_loops: self.high_loops,
        }
    }

    // The event at column x.
    fn one(self, x: u64, p: u64) -> Vector
        ensures { result ≡ single (slimmed self) x p }
    {
        Vector {
            x,
            y: self.y,
            t: self.time,
            p,
            mask: 1,
        }
    }

    // The events of a mask, from the base column on.
    fn many(self, mask: u64) -> Vector
        ensures { result ≡ several (slimmed self) mask }
    {
        Vector {
            x: self.base_x,
            y: self.y,
            t: self.time,
            p: self.polarity as u64,
            mask,
        }
    }

    // One word, for loops: they keep the decoder's numbers small enough that no sum wraps.
    pub fn advance(self, word: u64) -> Step<Self>
        requires { Sane3 self }
        ensures { (result.next ≡ widened (step3 (slimmed self) word)) × (result.events ≡ vector3 (slimmed self) word) }
    {
        let kind = bits(word, 12, 4);
        let low = bits(word, 0, 12);
        let x = bits(word, 0, 11);
        let p = bits(word, 11, 1);
        let mut d = self;
        let mut v = vector::none();
        if d.initialised {
            match kind {
                0 => {
                    d.y = x;
                }
                2 => {
                    v = d.one(x, p);
                }
                3 => {
                    d.base_x = x;
                    d.polarity = p == 1;
                }
                4 => {
                    v = d.many(low);
                    d.base_x = saturating_add(d.base_x, 12);
                }
                5 => {
                    v = d.many(bits(word, 0, 8));
                    d.base_x = saturating_add(d.base_x, 8);
                }
                6 => {
                    d.time = d.time_base + low;
                }
                8 => {
                    let raw = low * Decoder::GRAIN;
                    let c = clock::after(
                        Decoder::PERIOD,
                        Decoder::THRESHOLD,
                        d.time_base,
                        d.high_loops,
                        raw,
                    );
                    d.time_base = c.coarse;
                    d.time = c.coarse;
                    d.high_loops = c.loops;
                }
                1 | 7 | 9..=15 => {}
                _ => {}
            }
        } else {
            match kind {
                8 => {
                    let raw = low * Decoder::GRAIN;
                    d.initialised = true;
                    d.time_base = raw;
                    d.time = raw;
                }
                _ => {}
            }
        }
        Step { next: d, events: v }
    }
}
