// Single words: decoders, the events of a word one by one, and the decoder after words or a recording.
ghost use Rattle.std.specs.Prelude.{◌≡◌};
ghost use Rattle.evt_types.specs.Event.{next_of};
ghost use Rattle.read_after.specs.After.{after_raw_outcome};
ghost use Rattle.c_decoder.specs.{Decoder.new_decoder, Decoder.vector_in, Decoder.next_numbers, Decoder.word_outcome_c, Decoder.decoded_of};
ghost use Rattle.c_decoder.specs.{Decoder.after_outcome_c, Decoder.stepped_of};

use c_decoder::decoder::{
    PropheseeDecoded, PropheseeDecoder, PropheseeNext, PropheseeStepped, PropheseeVector,
    after_recording, decoded_of, new_decoder, refused_decoded, stepped_of,
};
use c_values::encoding::behind_too_long;
use evt_codec::Codec;
use evt_types::EventVector;

#[unsafe(no_mangle)]
pub extern "C" fn prophesee_new_decoder(encoding: u32) -> PropheseeDecoder
    ensures { result ≡ new_decoder encoding }
{
    new_decoder(encoding)
}

// The first word of `bytes`. A refusal returns the decoder as it was.
#[unsafe(no_mangle)]
pub extern "C" fn prophesee_decode(decoder: PropheseeDecoder, bytes: &[u8]) -> PropheseeDecoded
    ensures { result ≡ decoded_of decoder (word_outcome_c decoder bytes.now) }
{
    match Codec::try_from(decoder) {
        Ok(codec) => {
            let s = codec.step(bytes);
            decoded_of(decoder, s.next, s.answer)
        }
        Err(refusal) => refused_decoded(decoder, refusal),
    }
}

#[unsafe(no_mangle)]
pub extern "C" fn prophesee_next_event(events: PropheseeVector) -> PropheseeNext
    ensures { result ≡ next_numbers (next_of (vector_in events)) }
{
    PropheseeNext::from(EventVector::from(events).next())
}

// The decoder after all whole words.
#[unsafe(no_mangle)]
pub extern "C" fn prophesee_decoder_after(
    decoder: PropheseeDecoder,
    words: &[u8],
) -> PropheseeStepped
    ensures { result ≡ stepped_of decoder (after_outcome_c decoder words.now) }
{
    match Codec::try_from(decoder) {
        Ok(codec) => stepped_of(decoder, read_after::decoder_after(words, codec)),
        Err(refusal) => stepped_of(decoder, Err(behind_too_long(words.len(), refusal))),
    }
}

// The decoder after a recording's body; refused, a fresh one of EVT2.
#[unsafe(no_mangle)]
pub extern "C" fn prophesee_decoder_after_raw(recording: &[u8]) -> PropheseeStepped
    ensures { result ≡ stepped_of (new_decoder 2) (after_raw_outcome recording.now) }
{
    after_recording(recording)
}
