// A writer that resumes: behind a decoder, headerless words, or a recording's body.
ghost use Rattle.std.specs.Prelude.{◌≡◌, false};
ghost use Rattle.write_rules.specs.Rules.{fresh_sink};
ghost use Rattle.write_resume.specs.Resume.{raw_encoding, resume_raw_outcome};
ghost use Rattle.c_writer.specs.{Writer.flat_sink, Writer.writer_of};
ghost use Rattle.c_resume.specs.Resume.{resumed_of, resume_outcome_c, resume_words_outcome_c};

use c_decoder::decoder::PropheseeDecoder;
use c_resume::resume::{PropheseeResumed, resume_coded, resume_decoder, resume_recording};

// A refusal returns a fresh writer that sends no header, of the number given.
#[unsafe(no_mangle)]
pub extern "C" fn prophesee_resume(decoder: PropheseeDecoder) -> PropheseeResumed
    ensures { result ≡ resumed_of (writer_of decoder.encoding 0) (resume_outcome_c decoder) }
{
    resume_decoder(decoder)
}

#[unsafe(no_mangle)]
pub extern "C" fn prophesee_resume_words(words: &[u8], encoding: u32) -> PropheseeResumed
    ensures { result ≡ resumed_of (writer_of encoding 0) (resume_words_outcome_c words.now encoding) }
{
    resume_coded(words, encoding)
}

// A refusal returns one of the header's encoding, or of EVT2 where the header is refused.
#[unsafe(no_mangle)]
pub extern "C" fn prophesee_resume_raw(recording: &[u8]) -> PropheseeResumed
    ensures { result ≡ resumed_of (flat_sink (fresh_sink (raw_encoding recording.now) false)) (resume_raw_outcome recording.now) }
{
    resume_recording(recording)
}
