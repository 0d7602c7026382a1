// The words of events, stored in a buffer that the caller lends: a pass into no bytes is a dry
// run, and a pass into enough writes. Which words a writer sends, each with a note of the events that
// it carries, is defined in crates/evt2_encoder/specs/Evt2.antt, crates/evt21_encoder/specs/Evt21.antt
// and crates/evt3_lead_words/specs/Evt3.antt; specs/Encode.antt says which bytes they have, for each
// encoding.

#![tactic(auto)]

ghost use Rattle.std.specs.Prelude.{◌≡◌, ◌^◌, ◌≤◌, ◌<◌, length};
ghost use Rattle.std.proofs.lemmas.List.Edits.{sets};
ghost use Rattle.write_buffer.specs.Columns.{events_in};
ghost use Rattle.write_buffer.specs.Lent.{of};
ghost use Rattle.write_buffer.specs.Storing.{Roomy};
ghost use Rattle.write_words.specs.Encode.{encode_bytes, encode_most, passed, Fitting, Paced};

use evt_types::Encoding;
use write_buffer::{Columns, EncoderState, Put};

pub mod evt3;

// The most bytes that n events need which pass so many loops.
pub fn most_bytes(version: Encoding, n: usize, loops: u64) -> usize
    requires { (n ≤ 2 ^ 28) × (loops < 2 ^ 40) }
    ensures { result ≡ encode_most version n loops }
{
    match version {
        Encoding::Evt2 => 8 * n,
        Encoding::Evt21 => 16 * n,
        Encoding::Evt3 => 8 * n + 4 * loops as usize,
    }
}

// The words of all events, from `start` on, where they have room or there is no byte. The bounds
// keep the place from wrapping.
pub fn pass(
    version: Encoding,
    state: EncoderState,
    events: Columns,
    out: &mut [u8],
    start: usize,
) -> Put
    requires { (start ≤ 2 ^ 32)
        × (length (encode_bytes version state (of events_in events)) ≤ 2 ^ 36)
        × Roomy out.old start (length (encode_bytes version state (of events_in events)))
        × of (Fitting version) events
        × Paced version state (of events_in events) }
    ensures passed { result ≡ passed version state (of events_in events.entry) start }
    ensures stores { out.new ≡ sets out.old start (encode_bytes version state (of events_in events.entry)) }
{
    match version {
        Encoding::Evt2 => evt2_encoder::pass(state, events, &mut *out, start),
        Encoding::Evt21 => evt21_encoder::pass(state, events, &mut *out, start),
        Encoding::Evt3 => evt3::pass(state, events, &mut *out, start),
    }
}
