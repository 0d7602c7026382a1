// Reading with triggers beside the events, into seven lent columns; the trigger of a single word.
ghost use Rattle.std.specs.Prelude.{◌≡◌};
ghost use Rattle.c_triggers.specs.{Reading.DecodesWordsTriggersC, Reading.ReadsRawTriggersC, Word.trigger_numbers, Word.trigger_outcome_c};

use c_decoder::decoder::PropheseeDecoder;
use c_triggers::reading::PropheseeTriggerReading;
use c_triggers::word::{PropheseeTrigger, word_trigger};
use c_values::encoding::coded;
use c_values::options::PropheseeOptions;
use read::LoadOptions;

// A recording: its header, then its body.
#[unsafe(no_mangle)]
pub extern "C" fn prophesee_read_raw_triggers(
    recording: &[u8],
    options: PropheseeOptions,
    xs: &mut [u16],
    ys: &mut [u16],
    ts: &mut [i64],
    ps: &mut [u8],
    times: &mut [i64],
    ids: &mut [u8],
    values: &mut [u8],
) -> PropheseeTriggerReading
    ensures { ReadsRawTriggersC recording.now options result
        xs.old ys.old ts.old ps.old
        times.old ids.old values.old
        xs.new ys.new ts.new ps.new
        times.new ids.new values.new }
{
    let o = LoadOptions::from(options);
    let answer = read_triggers::read_raw_triggers(
        recording,
        o,
        &mut *xs,
        &mut *ys,
        &mut *ts,
        &mut *ps,
        &mut *times,
        &mut *ids,
        &mut *values,
    );
    PropheseeTriggerReading::from(answer)
}

// Headerless words: only the caller's encoding and size are used, and a first byte `%` is no header.
#[unsafe(no_mangle)]
pub extern "C" fn prophesee_decode_words_triggers(
    words: &[u8],
    encoding: u32,
    options: PropheseeOptions,
    xs: &mut [u16],
    ys: &mut [u16],
    ts: &mut [i64],
    ps: &mut [u8],
    times: &mut [i64],
    ids: &mut [u8],
    values: &mut [u8],
) -> PropheseeTriggerReading
    ensures { DecodesWordsTriggersC words.now encoding options result
        xs.old ys.old ts.old ps.old
        times.old ids.old values.old
        xs.new ys.new ts.new ps.new
        times.new ids.new values.new }
{
    let o = LoadOptions::from(options);
    match coded(encoding, words.len()) {
        Ok(e) => {
            let answer = read_triggers::decode_words_triggers(
                words,
                e,
                o.sensor_size,
                o.max_events,
                &mut *xs,
                &mut *ys,
                &mut *ts,
                &mut *ps,
                &mut *times,
                &mut *ids,
                &mut *values,
            );
            PropheseeTriggerReading::from(answer)
        }
        Err(refusal) => PropheseeTriggerReading::from(Err(refusal)),
    }
}

// The trigger of the first word of `bytes`, if it has one.
#[unsafe(no_mangle)]
pub extern "C" fn prophesee_word_trigger(
    decoder: PropheseeDecoder,
    bytes: &[u8],
) -> PropheseeTrigger
    ensures { result ≡ trigger_numbers (trigger_outcome_c decoder bytes.now) }
{
    word_trigger(decoder, bytes)
}
