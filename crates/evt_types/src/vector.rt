// The events of one word: a base column, a row, a time, a polarity, and a mask in which bit i
// stands for an event at column x + i, saturated at 65,535.
ghost use Rattle.std.specs.Prelude.{◌≡◌};
ghost use Rattle.evt_types.specs.Event.{Narrow, narrowed, no_events, next_of};

use crate::num::saturate;
use crate::{RawEvent, Refusal};

// In the loops all numbers have 64 bits, so that a step is inlined. The mask is below 2^32.
#[derive(Clone, Copy)]
pub struct Vector {
    pub x: u64,
    pub y: u64,
    pub t: u64,
    pub p: u64,
    pub mask: u64,
}

#[derive(Clone, Copy, Debug, PartialEq, Eq)]
pub struct EventVector {
    pub x: u16,
    pub y: u16,
    pub t: i64,
    pub p: u8,
    pub mask: u32,
}

// A decoder after a word, and the word's events.
#[derive(Clone, Copy)]
pub struct Step<D> {
    pub next: D,
    pub events: Vector,
}

// What one word by value leaves: the next decoder, and the word's events or why it is refused.
#[derive(Clone, Copy)]
pub struct Decoded<D> {
    pub next: D,
    pub answer: Result<EventVector, Refusal>,
}

impl EventVector {
    // The low set bit goes first and is then cleared from the mask.
    pub fn next(self) -> Option<(RawEvent, EventVector)>
        ensures { result ≡ next_of self }
    {
        let mask = self.mask;
        if mask == 0 {
            return None;
        }
        let x = self.x as u64 + u32::trailing_zeros(mask) as u64;
        let t = self.t;
        let event = RawEvent {
            x: saturate(x) as u16,
            y: self.y,
            t,
            p: self.p,
        };
        let mut rest = self;
        rest.mask = mask & (mask - 1);
        Some((event, rest))
    }
}

pub fn none() -> Vector
    ensures { result ≡ no_events }
{
    Vector {
        x: 0,
        y: 0,
        t: 0,
        p: 0,
        mask: 0,
    }
}

pub fn narrow(v: Vector) -> EventVector
    requires { Narrow v }
    ensures { result ≡ narrowed v }
{
    let t = v.t as i64;
    EventVector {
        x: v.x as u16,
        y: v.y as u16,
        t,
        p: v.p as u8,
        mask: v.mask as u32,
    }
}
