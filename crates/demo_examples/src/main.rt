// The examples that the comment of `prophesee_raw` names, run: reading, with triggers too, indexing and
// slicing, writing, streams that are cut and resumed, a long show, single words, and refusals. Every
// call is one of `prophesee_raw`; `test_text` only prints, an event as `t,x,y,p` and bytes in hex. Each
// line begins with the name of its example.

#![tactic(auto)]

mod decoding;
mod given;
mod print;
mod reading;
mod refusing;
mod resuming;
mod slicing;
mod triggers;
mod writing;

use std::io;

fn main(rt: HostRuntime) -> io::Result<()> {
    let mut stdout = io::writer(&rt);
    reading::read_recording(&mut stdout)?;
    reading::read_past_end_line(&mut stdout)?;
    reading::read_limited(&mut stdout)?;
    reading::read_words(&mut stdout)?;
    reading::read_evt21(&mut stdout)?;
    reading::bad_number(&mut stdout)?;
    triggers::read_pulses(&mut stdout)?;
    slicing::slice_recording(&mut stdout)?;
    writing::write_words(&mut stdout)?;
    writing::write_recording(&mut stdout)?;
    writing::write_evt21(&mut stdout)?;
    resuming::cut_and_resume(&mut stdout)?;
    resuming::cut_recording(&mut stdout)?;
    resuming::resume_stream(&mut stdout)?;
    resuming::resume_recording(&mut stdout)?;
    writing::long_show(&mut stdout)?;
    decoding::decode_singly(&mut stdout)?;
    decoding::decode_after(&mut stdout)?;
    triggers::trigger_of_word(&mut stdout)?;
    refusing::no_encoding(&mut stdout)?;
    refusing::columns_too_short(&mut stdout)?;
    refusing::records_too_few(&mut stdout)?;
    refusing::output_too_short(&mut stdout)?;
    refusing::times_fall(&mut stdout)?;
    triggers::triggers_too_many(&mut stdout)
}
