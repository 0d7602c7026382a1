// The decoder after words, and after a recording's body: what resuming a stream starts from.
// specs/After.antt says which it is, and when it is refused.

#![tactic(auto)]

ghost use Rattle.read_after.specs.After.{after_outcome, after_raw_outcome, Afters};

use evt_codec::Codec;
use evt_types::{MOST_BYTES, Refusal, SensorSize};

// The decoder after all whole words: 4, 10. No event of theirs lies inside a sensor of 0 by 0.
pub fn decoder_after(words: &[u8], codec: Codec) -> Result<Codec, Refusal>
    ensures { Afters (after_outcome codec words.now) result }
{
    if MOST_BYTES < words.len() {
        return Err(Refusal::TooLong);
    }
    if read_fill::in_range(codec) {
        let counted = read_count::count_all(words, codec, 0, 0);
        return Ok(counted.codec);
    }
    Err(Refusal::StateOutOfRange)
}

// The decoder after a recording's body: 4, 3, 2. A size, which nothing here needs, is given so that
// the header's isn't judged.
pub fn decoder_after_raw(recording: &[u8]) -> Result<Codec, Refusal>
    ensures { Afters (after_raw_outcome recording.now) result }
{
    let given = SensorSize {
        width: 1,
        height: 1,
    };
    let header = header::parse_header(recording, Some(given))?;
    decoder_after(
        &recording[header.data_offset..],
        Codec::new(header.encoding),
    )
}
