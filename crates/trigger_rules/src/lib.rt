// What reading with triggers answers, and all that it settles without touching a column: up to where
// a limit leaves triggers, and what is refused where their columns are too short. specs/Read.antt has
// the answers by the table of docs/RULES.md, specs/Laws.antt that the parts come to them.

#![tactic(auto)]

ghost use Rattle.std.specs.Prelude.{◌≡◌, ◌≤◌, ◌^◌, min, length, take};
ghost use Rattle.evt_codec.specs.{Codec.fresh_c, Triggers.triggers_from};
ghost use Rattle.read_rules.specs.Read.{body_events};
ghost use Rattle.trigger_rules.specs.{Read.body_triggers, Laws.is_sizeless, Laws.short_of};

use evt_codec::Codec;
use evt_types::{Encoding, Refusal, SensorSize};
use read_rules::Reading;

// What was read, and how many triggers.
#[derive(Clone, Copy)]
pub struct TriggerReading {
    pub reading: Reading,
    pub triggers: usize,
}

// The shortest of three columns counts. (As `read_capacity::shortest`: one function over an array would answer an Option.)
pub fn shortest3(a: usize, b: usize, c: usize) -> usize
    ensures { result ≡ min a (min b c) }
{
    a.min(b.min(c))
}

// Up to where a body's words have the triggers that the limit leaves. `requires`, here and below: every
// caller has refused longer bodies (4).
pub fn trigger_end(
    body: &[u8],
    encoding: Encoding,
    size: Option<SensorSize>,
    limit: Option<usize>,
) -> usize
    requires { length body.now ≤ 2 ^ 30 }
    ensures { (result ≤ length body.now)
        × (triggers_from (fresh_c encoding) (take result body.now) ≡ body_triggers encoding size limit body.now) }
{
    match limit {
        None => body.len(),
        Some(n) => end_before(body, encoding, size, n),
    }
}

// Up to the word that holds event n, counted from 1, of those that the size keeps, and through it: it
// holds no trigger.
fn end_before(body: &[u8], encoding: Encoding, size: Option<SensorSize>, n: usize) -> usize
    requires { length body.now ≤ 2 ^ 30 }
    ensures { (result ≤ length body.now)
        × (triggers_from (fresh_c encoding) (take result body.now) ≡ body_triggers encoding size (Some n) body.now) }
{
    if n == 0 {
        return 0;
    }
    let codec = Codec::new(encoding);
    let window = read_rules::window_of(size, Some(n));
    let words = read_select::survey(body, codec, window, 0).consumed;
    words * codec.word_size()
}

// No size, and no event to derive one from.
fn is_sizeless(size: Option<SensorSize>, events: usize) -> bool
    ensures { result ≡ is_sizeless size events }
{
    size.is_none() && events == 0
}

// Of a body with so many events and n triggers, into columns of `room` places and too few for triggers.
fn short_of(size: Option<SensorSize>, events: usize, room: usize, n: usize) -> Refusal
    ensures { result ≡ short_of size events room n }
{
    if is_sizeless(size, events) {
        return Refusal::InvalidSensorSize;
    }
    if room < events {
        return Refusal::ColumnsTooShort(events);
    }
    Refusal::TriggerColumnsTooShort(n)
}

// What is refused where the trigger columns are too short for n triggers: 1 for no event, 5, or 13. The
// events are counted for it.
pub fn refused_short(
    body: &[u8],
    encoding: Encoding,
    size: Option<SensorSize>,
    limit: Option<usize>,
    room: usize,
    n: usize,
) -> Refusal
    requires { length body.now ≤ 2 ^ 30 }
    ensures { result ≡ short_of size (length (body_events encoding size limit body.now)) room n }
{
    let codec = Codec::new(encoding);
    let window = read_rules::window_of(size, limit);
    let events = read_select::survey(body, codec, window, 0).count;
    short_of(size, events, room, n)
}
