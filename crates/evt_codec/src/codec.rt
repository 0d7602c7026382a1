// A decoder of any encoding.
ghost use Rattle.std.specs.Prelude.{◌≡◌, []};
ghost use Rattle.evt_types.specs.Event.{no_events};
ghost use Rattle.evt_codec.specs.Codec.{fresh_c, word_size, in_range_c, step_c, vector_c};
ghost use Rattle.evt_codec.specs.Decode.{DecodedC};
ghost use Rattle.evt_codec.specs.Triggers.{trigger_c};
ghost use Rattle.evt_types.specs.Owed.{Owed};
ghost use Rattle.evt_types.specs.Trigger.{trigger_outcome, OwedTrigger};

use evt_types::fields::{word16, word32};
use evt_types::{Decoded, Encoding, EventVector, RawTrigger, Refusal, vector, words};
use evt2_decoder::Evt2Decoder;
use evt3_decoder::Decoder;
use evt21_decoder::Evt21Decoder;

#[derive(Clone, Copy, Debug, PartialEq, Eq)]
pub enum Codec {
    Evt2(Evt2Decoder),
    Evt21(Evt21Decoder),
    Evt3(Decoder),
}

impl Codec {
    pub fn new(encoding: Encoding) -> Self
        ensures { result ≡ fresh_c encoding }
    {
        match encoding {
            Encoding::Evt2 => Codec::Evt2(Evt2Decoder::new()),
            Encoding::Evt21 => Codec::Evt21(Evt21Decoder::new()),
            Encoding::Evt3 => Codec::Evt3(Decoder::new()),
        }
    }

    pub fn word_size(self) -> usize
        ensures { result ≡ word_size self }
    {
        match self {
            Codec::Evt2(_) => Evt2Decoder::WORD_SIZE,
            Codec::Evt21(_) => Evt21Decoder::WORD_SIZE,
            Codec::Evt3(_) => Decoder::WORD_SIZE,
        }
    }

    pub fn in_range(self) -> bool
        ensures { result ≡ in_range_c self }
    {
        match self {
            Codec::Evt2(d) => d.in_range(),
            Codec::Evt21(d) => d.in_range(),
            Codec::Evt3(d) => d.in_range(),
        }
    }

    // The first word of `bytes`, by value; bytes behind it aren't read. A decoder out of range is
    // refused; else, with fewer bytes than a word, nothing happens.
    pub fn step(self, bytes: &[u8]) -> Decoded<Codec>
        ensures { DecodedC self bytes.now result }
    {
        if bytes.len() < self.word_size() {
            return self.idle();
        }
        match self {
            Codec::Evt2(d) => {
                let s = d.step(word32(bytes[0], bytes[1], bytes[2], bytes[3]));
                Decoded {
                    next: Codec::Evt2(s.next),
                    answer: s.answer,
                }
            }
            Codec::Evt21(d) => {
                let s = d.step(words::eight_at(bytes, 0));
                Decoded {
                    next: Codec::Evt21(s.next),
                    answer: s.answer,
                }
            }
            Codec::Evt3(d) => {
                let s = d.step(word16(bytes[0], bytes[1]));
                Decoded {
                    next: Codec::Evt3(s.next),
                    answer: s.answer,
                }
            }
        }
    }

    // No word.
    fn idle(self) -> Decoded<Codec>
        ensures { Owed (in_range_c self) self self no_events result.next result.answer }
    {
        if self.in_range() {
            return Decoded {
                next: self,
                answer: Ok(vector::narrow(vector::none())),
            };
        }
        Decoded {
            next: self,
            answer: Err(Refusal::StateOutOfRange),
        }
    }

    // The first word of `bytes`, into a lent decoder. Out of range, it is refused and left as it was.
    pub fn decode(&mut self, bytes: &[u8]) -> Result<EventVector, Refusal>
        ensures { Owed (in_range_c self.old) self.old (step_c self.old bytes.now)
            (vector_c self.old bytes.now) self.new result }
    {
        let s = (*self).step(bytes);
        *self = s.next;
        s.answer
    }

    // The trigger that the first word of `bytes` carries, if it does. A decoder out of range is refused;
    // else fewer bytes than a word carry none.
    pub fn trigger(self, bytes: &[u8]) -> Result<Option<RawTrigger>, Refusal>
        ensures { OwedTrigger (trigger_outcome (in_range_c self) (trigger_c self bytes.now)) result }
    {
        if bytes.len() < self.word_size() {
            return self.no_trigger();
        }
        match self {
            Codec::Evt2(d) => d.trigger(word32(bytes[0], bytes[1], bytes[2], bytes[3])),
            Codec::Evt21(d) => d.trigger(words::eight_at(bytes, 0)),
            Codec::Evt3(d) => d.trigger(word16(bytes[0], bytes[1])),
        }
    }

    // No word.
    fn no_trigger(self) -> Result<Option<RawTrigger>, Refusal>
        ensures { OwedTrigger (trigger_outcome (in_range_c self) []) result }
    {
        if self.in_range() {
            return Ok(None);
        }
        Err(Refusal::StateOutOfRange)
    }
}
