// The loops that count over the words of a part of a recording: all events inside a sensor, with their
// maximum time, or words up to a number of events. They serve finding out how many places columns
// need, the opening of an index, and the start of slices by number. specs/Count.antt says what they
// tell, over the definitions of `Decode` of the crate `read_fill`.
//
// They keep a `requires`: no sum wraps. The caller has judged its decoder (10) before, and `Laws` of
// the crate `read_fill` shows that this is enough.

#![tactic(auto)]

ghost use Rattle.std.specs.Prelude.{◌≡◌, length, drop};
ghost use Rattle.read_fill.specs.Decode.{Bounded, Able};
ghost use Rattle.read_count.specs.Count.{counted_all_of, counted_to_of};

use evt_codec::Codec;
use evt2_decoder::Evt2Decoder;
use evt3_decoder::Decoder;
use evt21_decoder::Evt21Decoder;

mod all;
mod evt21_inside;
mod evt2_inside;
mod evt3_inside;
mod evt3_step;
mod to;

// Where a word's last byte is, counted from its first. The loops here test for it: by the size of a word
// they measured slower.
const LAST_BYTE2: usize = Evt2Decoder::WORD_SIZE - 1;

const LAST_BYTE21: usize = Evt21Decoder::WORD_SIZE - 1;

const LAST_BYTE3: usize = Decoder::WORD_SIZE - 1;

// What counting leaves: how many events there are, their maximum time (0 of none), and the decoder.
#[derive(Clone, Copy)]
pub struct CountedAll {
    pub count: usize,
    pub latest: u64,
    pub codec: Codec,
}

// What passing over leaves: how many bytes, how many events inside they have, and the decoder.
#[derive(Clone, Copy)]
pub struct CountedTo {
    pub at: usize,
    pub count: usize,
    pub codec: Codec,
}

// Counts all events of the bytes inside the sensor.
pub fn count_all(bytes: &[u8], codec: Codec, width: u64, height: u64) -> CountedAll
    requires { Bounded (length bytes.now) codec }
    ensures { result ≡ counted_all_of width height codec bytes.now }
{
    match codec {
        Codec::Evt2(d) => {
            let s = all::evt2(bytes, d, width, height);
            let decoder = s.decoder;
            CountedAll {
                count: s.count,
                latest: s.latest,
                codec: Codec::Evt2(decoder),
            }
        }
        Codec::Evt21(d) => {
            let s = all::evt21(bytes, d, width, height);
            let decoder = s.decoder;
            CountedAll {
                count: s.count,
                latest: s.latest,
                codec: Codec::Evt21(decoder),
            }
        }
        Codec::Evt3(d) => {
            let s = all::evt3(bytes, d, width, height);
            let decoder = s.decoder;
            CountedAll {
                count: s.count,
                latest: s.latest,
                codec: Codec::Evt3(decoder),
            }
        }
    }
}

// Passes over words as long as the events inside the sensor, those of the word with them, number at
// most `most`. Slices by number start with it.
pub fn count_to(bytes: &[u8], codec: Codec, width: u64, height: u64, most: usize) -> CountedTo
    requires { Able (length bytes.now) codec }
    ensures { (result ≡ counted_to_of width height most codec bytes.now) × Bounded (length (drop result.at bytes.now)) result.codec }
{
    match codec {
        Codec::Evt2(d) => {
            let s = to::evt2(bytes, d, width, height, most);
            let decoder = s.decoder;
            CountedTo {
                at: s.at,
                count: s.count,
                codec: Codec::Evt2(decoder),
            }
        }
        Codec::Evt21(d) => {
            let s = to::evt21(bytes, d, width, height, most);
            let decoder = s.decoder;
            CountedTo {
                at: s.at,
                count: s.count,
                codec: Codec::Evt21(decoder),
            }
        }
        Codec::Evt3(d) => {
            let s = to::evt3(bytes, d, width, height, most);
            let decoder = s.decoder;
            CountedTo {
                at: s.at,
                count: s.count,
                codec: Codec::Evt3(decoder),
            }
        }
    }
}
