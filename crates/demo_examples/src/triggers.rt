// Triggers: beside the events, into three columns of their own, and of a single word.
use crate::print;
use prophesee_raw::{Decoder, Encoding, Refusal, TriggerReading, decode_words_triggers};
use std::io;
use std::io::Write;

// The words 8001 6001 A301 2014 6388 A300: channel 3 rises at 4,097 µs and falls at 5,000, an event
// between.
fn words() -> [u8; 12] {
    *b"\x01\x80\x01\x60\x01\xa3\x14\x20\x88\x63\x00\xa3"
}

// What was read, the triggers' times and their channels.
#[derive(Clone, Copy)]
struct Pulses {
    answer: Result<TriggerReading, Refusal>,
    times: [i64; 2],
    ids: [u8; 2],
}

// The values go to a column of the caller's: the shortest of the three counts.
fn decode(stdout: &mut impl Write, name: &str, values: &mut [u8]) -> io::Result<Pulses> {
    let mut xs = [0; 4];
    let mut ys = [0; 4];
    let mut ts = [0; 4];
    let mut ps = [0; 4];
    let mut times = [0; 2];
    let mut ids = [0; 2];
    let answer = decode_words_triggers(
        &words(),
        Encoding::Evt3,
        None,
        None,
        &mut xs,
        &mut ys,
        &mut ts,
        &mut ps,
        &mut times,
        &mut ids,
        values,
    );
    print::reading_triggers(stdout, name, answer)?;
    let events = answer.map_or(0, |r| r.reading.count);
    print::events(stdout, events, xs, ys, ts, ps)?;
    Ok(Pulses { answer, times, ids })
}

pub fn read_pulses(stdout: &mut impl Write) -> io::Result<()> {
    let mut values = [0; 2];
    let read = decode(stdout, "read_pulses: ", &mut values)?;
    let triggers = read.answer.map_or(0, |r| r.triggers);
    print::triggers(stdout, triggers, read.times, read.ids, values)
}

// Places for one trigger, where there are two: 13 tells the 2.
pub fn triggers_too_many(stdout: &mut impl Write) -> io::Result<()> {
    let mut values = [0; 1];
    decode(stdout, "triggers_too_many: ", &mut values)?;
    Ok(())
}

// The word A301 behind 8001.
pub fn trigger_of_word(stdout: &mut impl Write) -> io::Result<()> {
    let decoder = Decoder::new();
    let started = decoder.step(0x8001).next;
    print::trigger(stdout, "trigger_of_word: ", started.trigger(0xA301))
}
