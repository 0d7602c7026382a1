// The writer that resumes, in numbers.
ghost use Rattle.std.specs.Prelude.{◌≡◌, false};
ghost use Rattle.evt_types.specs.Outcome.{refuse};
ghost use Rattle.write_rules.specs.Rules.{fresh_sink};
ghost use Rattle.write_resume.specs.Resume.{raw_encoding, resume_raw_outcome};
ghost use Rattle.c_writer.specs.{Writer.flat_sink, Writer.writer_of};
ghost use Rattle.c_resume.specs.{Resume.resumed_of, Resume.resume_outcome_c, Resume.resume_words_outcome_c, Promises.resumed_numbers};

use c_decoder::decoder::PropheseeDecoder;
use c_values::encoding::coded;
use c_writer::writer::{PropheseeSink, writer_of};
use evt_codec::Codec;
use evt_types::Refusal;
use write_resume::Resumed;

// `refusal` 0: the writer that resumes. Else the table's number, and a fresh writer that sends no header.
#[repr(C)]
#[derive(Clone, Copy)]
pub struct PropheseeResumed {
    pub sink: PropheseeSink,
    pub refusal: u32,
}

impl From<Resumed> for PropheseeResumed {
    ghost from_gives = { λ r n. n ≡ resumed_numbers r };

    fn from(resumed: Resumed) -> PropheseeResumed {
        let refusal = match resumed.answer {
            Ok(()) => 0,
            Err(r) => u32::from(r),
        };
        PropheseeResumed {
            sink: PropheseeSink::from(resumed.sink),
            refusal,
        }
    }
}

fn refused_resumed(encoding: u32, refusal: Refusal) -> PropheseeResumed
    ensures { result ≡ resumed_of (writer_of encoding 0) (refuse refusal) }
{
    PropheseeResumed {
        sink: writer_of(encoding, 0),
        refusal: u32::from(refusal),
    }
}

// Behind a decoder.
pub fn resume_decoder(decoder: PropheseeDecoder) -> PropheseeResumed
    ensures { result ≡ resumed_of (writer_of decoder.encoding 0) (resume_outcome_c decoder) }
{
    match Codec::try_from(decoder) {
        Ok(codec) => PropheseeResumed::from(write_resume::resume(codec)),
        Err(refusal) => refused_resumed(decoder.encoding, refusal),
    }
}

// Behind headerless words of an encoding that the caller names.
pub fn resume_coded(words: &[u8], encoding: u32) -> PropheseeResumed
    ensures { result ≡ resumed_of (writer_of encoding 0) (resume_words_outcome_c words.now encoding) }
{
    match coded(encoding, words.len()) {
        Ok(e) => PropheseeResumed::from(write_resume::resume_words(words, e)),
        Err(refusal) => refused_resumed(encoding, refusal),
    }
}

// Behind a recording's body.
pub fn resume_recording(recording: &[u8]) -> PropheseeResumed
    ensures { result ≡ resumed_of (flat_sink (fresh_sink (raw_encoding recording.now) false)) (resume_raw_outcome recording.now) }
{
    PropheseeResumed::from(write_resume::resume_raw(recording))
}
