// How many places events need, and what handing them over comes to: all of them, or none where the
// columns are too short (5). No function here has a column. specs/Deliver.antt says what is answered
// and what the columns hold, specs/Laws.antt that bounds and counts are enough for it.

#![tactic(auto)]

ghost use Rattle.std.specs.Prelude.{◌≡◌, ◌≤◌, ◌^◌, min, length};
ghost use Rattle.read_fill.specs.Decode.{Bounded, inside_events};
ghost use Rattle.read_select.specs.Pass.{Ready, handed_over};
ghost use Rattle.read_capacity.specs.Deliver.{most_from, most_over, Enough};

use evt_codec::Codec;
use evt2_decoder::Evt2Decoder;
use evt3_decoder::Decoder;
use evt21_decoder::Evt21Decoder;
use read_select::Window;

// The shortest of four columns counts. (By `iter().copied().min()` of an array it would be an Option, no plainer.)
pub fn shortest(a: usize, b: usize, c: usize, d: usize) -> usize
    ensures { result ≡ min (min a b) (min c d) }
{
    a.min(b).min(c.min(d))
}

// More events than this n bytes can't have. `requires`: every caller has refused longer ones (4).
pub fn most_from(codec: Codec, n: usize) -> usize
    requires { n ≤ 2 ^ 30 }
    ensures { result ≡ most_from codec n }
{
    match codec {
        Codec::Evt2(_) => n / Evt2Decoder::WORD_SIZE,
        Codec::Evt21(_) => n / Evt21Decoder::WORD_SIZE * 32,
        Codec::Evt3(_) => n / Decoder::WORD_SIZE * 12,
    }
}

// Enough places for all events inside the sensor; where that is more than `room`, just as many as
// they need. Where no bound tells, the bytes are decoded for it. `requires`, here and below: every
// caller has refused longer recordings (4) and a decoder out of range (10).
pub fn need_all(bytes: &[u8], codec: Codec, width: u64, height: u64, room: usize) -> usize
    requires short { length bytes.now ≤ 2 ^ 30 }
    requires bounded { Bounded (length bytes.now) codec }
    ensures { Enough (inside_events width height codec bytes.now) room result }
{
    let most = most_from(codec, bytes.len());
    if most <= room {
        return most;
    }
    read_count::count_all(bytes, codec, width, height).count
}

// More events than this a pass can't hand over.
fn most_over(window: Window, codec: Codec, n: usize) -> usize
    requires { n ≤ 2 ^ 30 }
    ensures { result ≡ most_over window codec n }
{
    let numbers = window.n1.saturating_sub(window.n0) as usize;
    numbers.min(most_from(codec, n))
}

// The same for what a pass hands over.
pub fn need(bytes: &[u8], codec: Codec, window: Window, number: u64, room: usize) -> usize
    requires { Ready codec number (length bytes.now) }
    ensures { Enough (handed_over window number codec bytes.now) room result }
{
    let bound = most_over(window, codec, bytes.len());
    if bound <= room {
        return bound;
    }
    read_select::survey(bytes, codec, window, number).count
}
