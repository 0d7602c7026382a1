// The triggers of all whole words of a part of a recording, written to three columns. Only a decoder's
// times matter to them (specs/Form.antt), so one generic loop serves all encodings, over
// their numbers.
//
// The loop stops at notable words alone: triggers, and time words with which the time becomes late in
// its period or no longer is. Between them no loop is counted (specs/Calm.antt), so blocks of other
// words are passed over by their highest bytes, and the times are looked for from the next notable
// word back.

#![tactic(auto)]

ghost use Rattle.std.specs.Prelude.{◌≡◌, ◌≤◌, length};
ghost use Rattle.evt_types.specs.Trigger.{HandedTriggers, shortest3};
ghost use Rattle.evt_codec.specs.Triggers.{triggers_from};
ghost use Rattle.read_fill.specs.Decode.{Bounded};
ghost use Rattle.trigger_fill.specs.Form.{pulses_from};
ghost use Rattle.trigger_fill.specs.Pulse.{Place};
ghost use Rattle.trigger_fill.specs.Start.{start_of};

use crate::first::first;
use crate::form::Format;
use crate::outset::{Outset, outset_of};
use crate::pulses::pulses;
use evt_codec::Codec;
use evt2_decoder::Evt2Decoder;
use evt3_decoder::Decoder;
use evt21_decoder::Evt21Decoder;

mod back;
mod blocks;
mod find;
mod first;
mod form;
mod outset;
mod pulses;
mod times;

// Writes the triggers of all whole words to three columns from index 0 on. `requires`: every caller
// starts from a decoder in range, has refused longer recordings (4), and columns that are too short
// (13).
pub fn fill(bytes: &[u8], codec: Codec, ts: &mut [i64], ids: &mut [u8], values: &mut [u8]) -> usize
    requires bounded { Bounded (length bytes.now) codec }
    requires room { length (triggers_from codec bytes.now) ≤ shortest3 ts.old ids.old values.old }
    ensures { (result ≡ length (triggers_from codec bytes.now))
        × HandedTriggers (triggers_from codec bytes.now) ts.old ids.old values.old
        ts.new ids.new values.new }
{
    let o = outset_of(codec);
    match codec {
        Codec::Evt2(_) => fill_from::<Evt2Decoder>(bytes, o, &mut *ts, &mut *ids, &mut *values),
        Codec::Evt21(_) => fill_from::<Evt21Decoder>(bytes, o, &mut *ts, &mut *ids, &mut *values),
        Codec::Evt3(_) => fill_from::<Decoder>(bytes, o, &mut *ts, &mut *ids, &mut *values),
    }
}

// Of a decoder with this outset. The columns stay three slices, as `fill` and the C interface have them.
fn fill_from<E: Format>(
    bytes: &[u8],
    o: Outset,
    ts: &mut [i64],
    ids: &mut [u8],
    values: &mut [u8],
) -> usize
    requires place { Place E.FORM bytes.now o.times (start_of E.FORM o.started bytes.now) }
    requires room { length (pulses_from E.FORM o.times (start_of E.FORM o.started bytes.now) bytes.now)
        ≤ shortest3 ts.old ids.old values.old }
    ensures { (result ≡ length (pulses_from E.FORM o.times (start_of E.FORM o.started bytes.now) bytes.now))
        × HandedTriggers (pulses_from E.FORM o.times (start_of E.FORM o.started bytes.now) bytes.now)
        ts.old ids.old values.old ts.new ids.new values.new }
{
    let from = first::<E>(bytes, o.started);
    pulses::<E>(bytes, from, o.times, &mut *ts, &mut *ids, &mut *values)
}
