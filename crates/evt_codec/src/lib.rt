// A decoder of any encoding, one word to a step, over the decoders of each (crates evt2_decoder,
// evt21_decoder and evt3_decoder) and the shared types (crate evt_types), which are passed on.
// specs/Reader.antt has what the decoder of each encoding is, specs/Codec.antt what a word does,
// specs/Decode.antt what decoding it promises, specs/Sound.antt what holds of every encoding's.

#![tactic(auto)]

pub mod codec;
pub mod word_loop;

pub use codec::Codec;
pub use evt_types::{Encoding, EventVector, EvtVersion, RawEvent, RawTrigger, Refusal, SensorSize};
pub use evt2_decoder::Evt2Decoder;
pub use evt3_decoder::Decoder;
pub use evt21_decoder::Evt21Decoder;
pub use word_loop::WordLoop;
