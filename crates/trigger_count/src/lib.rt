// How many triggers the words of a part of a recording have: of the words behind the first of type 8,
// or of all if the decoder has started, those of type 10 are counted, and none is decoded. The type of a
// word is the high half of its last byte in every encoding, so the same loops serve for all word sizes.
// specs/Marks.antt shows that they are as many as the triggers.

#![tactic(auto)]

ghost use Rattle.std.specs.Prelude.{◌≡◌, length};
ghost use Rattle.evt_codec.specs.Triggers.{triggers_from};
ghost use Rattle.trigger_count.specs.Marks.{trigger_count};
ghost use Rattle.trigger_count.specs.Table.{Block};

use evt_codec::Codec;
use evt2_decoder::Evt2Decoder;
use evt3_decoder::Decoder;
use evt21_decoder::Evt21Decoder;

mod blocks;
mod start;

// How many triggers the whole words of the bytes have, from this decoder.
pub fn count(bytes: &[u8], codec: Codec) -> usize
    ensures { result ≡ length (triggers_from codec bytes.now) }
{
    match codec {
        Codec::Evt2(d) => of_size(bytes, d.initialised, Evt2Decoder::WORD_SIZE),
        Codec::Evt21(d) => of_size(bytes, d.initialised, Evt21Decoder::WORD_SIZE),
        Codec::Evt3(d) => of_size(bytes, d.initialised, Decoder::WORD_SIZE),
    }
}

// Of words of `size` bytes.
fn of_size(bytes: &[u8], started: bool, size: usize) -> usize
    requires { Block size }
    ensures { result ≡ trigger_count size started bytes.now }
{
    if started {
        return blocks::count(bytes, size);
    }
    let at = start::behind_first_time(bytes, size);
    blocks::count(&bytes[at..], size)
}
