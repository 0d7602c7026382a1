// EVT 2.1: words of 64 bits. The upper half is a word of EVT 2.0, and the lower half of an event word
// is a mask in which bit i stands for an event at column x + i.

#![tactic(auto)]

ghost use Rattle.std.specs.Prelude.{◌≡◌};
ghost use Rattle.evt2_decoder.specs.Evt2.{step2, vector2, Sane2};
ghost use Rattle.evt21_decoder.specs.Evt21.{as2, of2, wide, fresh21, step21, vector21, in_range21};
ghost use Rattle.evt21_decoder.specs.Decode.{Decoded21};
ghost use Rattle.evt21_decoder.specs.Triggers.{trigger21};
ghost use Rattle.evt_types.specs.Layout.{upper, mask21};
ghost use Rattle.evt_types.specs.Owed.{Owed};
ghost use Rattle.evt_types.specs.Trigger.{trigger_outcome, OwedTrigger};

use evt_types::fields::bits;
use evt_types::{Decoded, EventVector, RawTrigger, Refusal, Step, vector};
use evt2_decoder::Evt2Decoder;

#[derive(Clone, Copy, Debug, PartialEq, Eq)]
pub struct Evt21Decoder {
    pub initialised: bool,
    pub time_high: u64,
    pub time: u64,
    pub high_loops: u64,
}

impl Evt21Decoder {
    pub const WORD_SIZE: usize = 8;

    pub fn new() -> Self
        ensures { result ≡ fresh21 }
    {
        Self {
            initialised: false,
            time_high: 0,
            time: 0,
            high_loops: 0,
        }
    }

    // The same numbers as a decoder of EVT 2.0.
    pub fn evt2(self) -> Evt2Decoder
        ensures { result ≡ as2 self }
    {
        Evt2Decoder {
            initialised: self.initialised,
            time_high: self.time_high,
            time: self.time,
            high_loops: self.high_loops,
        }
    }

    pub fn in_range(self) -> bool
        ensures { result ≡ in_range21 self }
    {
        self.evt2().in_range()
    }

    // One word, by value. A decoder out of range is refused, and comes back as it was.
    pub fn step(self, word: u64) -> Decoded<Self>
        ensures { Decoded21 self word result }
    {
        if self.in_range() {
            let s = advance(self.evt2(), word);
            return Decoded {
                next: of_evt2(s.next),
                answer: Ok(vector::narrow(s.events)),
            };
        }
        Decoded {
            next: self,
            answer: Err(Refusal::StateOutOfRange),
        }
    }

    // One word, into a lent decoder. Out of range, it is refused and left as it was.
    pub fn decode(&mut self, word: u64) -> Result<EventVector, Refusal>
        ensures { Owed (in_range21 self.old) self.old (step21 self.old word)
            (vector21 self.old word) self.new result }
    {
        let s = (*self).step(word);
        *self = s.next;
        s.answer
    }

    // The trigger that a word carries, if it does. No word's trigger alters the decoder, so a by-value
    // method is enough. A decoder out of range is refused.
    pub fn trigger(self, word: u64) -> Result<Option<RawTrigger>, Refusal>
        ensures { OwedTrigger (trigger_outcome (in_range21 self) (trigger21 self word)) result }
    {
        let upper = word >> 32;
        self.evt2().trigger(upper as u32)
    }
}

pub fn of_evt2(d: Evt2Decoder) -> Evt21Decoder
    ensures { result ≡ of2 d }
{
    Evt21Decoder {
        initialised: d.initialised,
        time_high: d.time_high,
        time: d.time,
        high_loops: d.high_loops,
    }
}

// One word, for loops: they keep a decoder of EVT 2.0, and its numbers small enough that no sum wraps.
// It is no method, since nothing that `prophesee_raw` passes on has a `requires`.
pub fn advance(decoder: Evt2Decoder, word: u64) -> Step<Evt2Decoder>
    requires { Sane2 decoder }
    ensures { (result.next ≡ step2 decoder (upper word)) × (result.events ≡ wide (vector2 decoder (upper word)) (mask21 word)) }
{
    let s = evt2_decoder::advance(decoder, word >> 32);
    let next = s.next;
    let mut events = s.events;
    // EVT 2.0 says 1 of an event word, and 0 of others.
    events.mask = events.mask * bits(word, 0, 32);
    Step { next, events }
}
