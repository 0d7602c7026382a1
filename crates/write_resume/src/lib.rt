// A writer that resumes: one that goes on where a decoder stands, so that what it sends reads as it
// would behind the whole stream, whatever loops of time were counted. specs/Resume.antt says which
// writer that is and when there is none, specs/Laws.antt that it is always in range; specs/Ends.antt is
// for the proofs.

#![tactic(auto)]

ghost use Rattle.std.specs.Prelude.{◌≡◌, ◌&&◌, ltb};
ghost use Rattle.evt_types.specs.Outcome.{refuse};
ghost use Rattle.evt_codec.specs.Codec.{encoding_of, in_range_c};
ghost use Rattle.write_rules.specs.Range.{time_bound};
ghost use Rattle.write_resume.specs.Resume.{resume_outcome, resume_words_outcome, resume_raw_outcome, raw_encoding, Resumes};
ghost use Rattle.write_resume.specs.Ends.{coarse_of, resumed_at, resumed_by};

use evt_codec::Codec;
use evt_types::{Encoding, Refusal};
use evt2_decoder::Evt2Decoder;
use evt3_decoder::Decoder;
use write_buffer::EncoderState;
use write_rules::{RawEventSink, TIMES};

// On a refusal the sink is a fresh one of the encoding that sends no header; of EVT2 where a recording
// names no encoding.
#[derive(Clone, Copy)]
pub struct Resumed {
    pub sink: RawEventSink,
    pub answer: Result<(), Refusal>,
}

// What resuming looks at: the encoding of a decoder, its coarse time, and the half that this is, once
// it is set.
#[derive(Clone, Copy)]
struct Coarse {
    encoding: Encoding,
    time: u64,
    half: Option<u64>,
}

fn coarse_of(codec: Codec) -> Coarse
    ensures { result ≡ coarse_of codec }
{
    match codec {
        Codec::Evt2(d) => Coarse {
            encoding: Encoding::Evt2,
            time: d.time_high,
            half: d.initialised.then_some(d.time_high / Evt2Decoder::GRAIN),
        },
        Codec::Evt21(d) => Coarse {
            encoding: Encoding::Evt21,
            time: d.time_high,
            half: d.initialised.then_some(d.time_high / Evt2Decoder::GRAIN),
        },
        Codec::Evt3(d) => Coarse {
            encoding: Encoding::Evt3,
            time: d.time_base,
            half: d.initialised.then_some(d.time_base / Decoder::GRAIN),
        },
    }
}

// The half is held, so that it isn't sent again; low half and row are due.
fn resumed_at(coarse: Coarse) -> RawEventSink
    ensures { result ≡ resumed_at coarse }
{
    let state = EncoderState {
        time_high: coarse.half,
        time_low: None,
        y: None,
    };
    RawEventSink {
        version: coarse.encoding,
        header_written: true,
        n_events: 0,
        last_t: None,
        state,
    }
}

fn refused(encoding: Encoding, refusal: Refusal) -> Resumed
    ensures { result ≡ resumed_by encoding (refuse refusal) }
{
    Resumed {
        sink: RawEventSink::to_writer(encoding, false),
        answer: Err(refusal),
    }
}

fn is_resumable(codec: Codec, coarse: Coarse) -> bool
    ensures { result ≡ (in_range_c codec && ltb coarse.time time_bound) }
{
    codec.in_range() && coarse.time < TIMES
}

// Behind a decoder: 10 where it is out of range, or its coarse time past all that an event may have.
pub fn resume(codec: Codec) -> Resumed
    ensures { Resumes (encoding_of codec) (resume_outcome codec) result }
{
    let coarse = coarse_of(codec);
    if is_resumable(codec, coarse) {
        return Resumed {
            sink: resumed_at(coarse),
            answer: Ok(()),
        };
    }
    refused(coarse.encoding, Refusal::StateOutOfRange)
}

// Behind headerless words, of which a broken last one is no part: 4, 10.
pub fn resume_words(words: &[u8], encoding: Encoding) -> Resumed
    ensures { Resumes encoding (resume_words_outcome words.now encoding) result }
{
    match read_after::decoder_after(words, Codec::new(encoding)) {
        Ok(codec) => resume(codec),
        Err(r) => refused(encoding, r),
    }
}

// Behind a recording's body: 4, 3, 2, 10.
pub fn resume_raw(recording: &[u8]) -> Resumed
    ensures { Resumes (raw_encoding recording.now) (resume_raw_outcome recording.now) result }
{
    match read_after::decoder_after_raw(recording) {
        Ok(codec) => resume(codec),
        Err(r) => refused(Encoding::Evt2, r),
    }
}
