// Whether a writer is in range (10), and a time (7), and what no time may be below (6).
ghost use Rattle.std.specs.Prelude.{◌≡◌, true};
ghost use Rattle.std.specs.Prelude.{None};
ghost use Rattle.write_rules.specs.Range.{time_in_range, belongs, sent_at_most, high_in_range, sent_in_range, last_in_range};
ghost use Rattle.write_rules.specs.Range.{grain_of, not_before, held_in_range};

use crate::TIMES;
use evt_types::Encoding;
use evt_types::num::natural_time;
use evt2_decoder::Evt2Decoder;
use evt3_decoder::Decoder;
use write_buffer::EncoderState;

// Sent as q, or not at all.
fn is_or_nothing(s: Option<u64>, q: u64) -> bool
    ensures { result ≡ belongs s q }
{
    s.is_none_or(|g| g == q)
}

fn at_most(s: Option<u64>, most: u64) -> bool
    ensures { result ≡ sent_at_most s most }
{
    s.is_none_or(|g| g <= most)
}

pub fn time(t: i64) -> bool
    ensures { result ≡ time_in_range t }
{
    0 <= t && natural_time(t) < TIMES
}

fn grain_of(version: Encoding) -> u64
    ensures { result ≡ grain_of version }
{
    match version {
        Encoding::Evt2 | Encoding::Evt21 => Evt2Decoder::GRAIN,
        Encoding::Evt3 => Decoder::GRAIN,
    }
}

// Whether a half's coarse time is below the bound: divided, since a product could wrap.
fn held(version: Encoding, high: Option<u64>) -> bool
    ensures { result ≡ held_in_range version high }
{
    high.is_none_or(|h| h < TIMES / grain_of(version))
}

// The coarse time that is held, if any.
fn coarse(version: Encoding, high: Option<u64>) -> Option<i64>
    requires { held_in_range version high ≡ true }
    ensures { result ≡ not_before version high None }
{
    match high {
        None => None,
        Some(h) => {
            let time = (h * grain_of(version)) as i64;
            Some(time)
        }
    }
}

// What no time of an append may be below: the last time, or else the coarse time that is held.
pub fn not_before(version: Encoding, state: EncoderState, last: Option<i64>) -> Option<i64>
    requires { last ≡ None → held_in_range version state.time_high ≡ true }
    ensures { result ≡ not_before version state.time_high last }
{
    match last {
        None => coarse(version, state.time_high),
        Some(_) => last,
    }
}

// Nothing but a high half is sent.
fn only_high(state: EncoderState, q: u64) -> bool
    ensures { result ≡ high_in_range state q }
{
    is_or_nothing(state.time_high, q) && state.time_low.is_none() && state.y.is_none()
}

fn sent(version: Encoding, state: EncoderState, t: u64) -> bool
    ensures { result ≡ sent_in_range version state t }
{
    let EncoderState {
        time_high,
        time_low,
        y,
    } = state;
    match version {
        Encoding::Evt2 | Encoding::Evt21 => only_high(state, t / Evt2Decoder::GRAIN),
        Encoding::Evt3 => is_or_nothing(time_high, t / Decoder::GRAIN)
            && is_or_nothing(time_low, t % Decoder::GRAIN)
            && at_most(y, 2047),
    }
}

pub fn last(version: Encoding, state: EncoderState, n: usize, last: Option<i64>) -> bool
    ensures { result ≡ last_in_range version state n last }
{
    match last {
        None => {
            held(version, state.time_high)
                && state.time_low.is_none()
                && state.y.is_none()
                && n == 0
        }
        Some(t) => time(t) && n <= 4611686018427387904 && sent(version, state, natural_time(t)),
    }
}
