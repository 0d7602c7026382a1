// Single words, as they come in.
use crate::print;
use prophesee_raw::{Codec, Decoded, Decoder, Encoding, decoder_after};
use std::io;
use std::io::Write;

// A step answers a `Decoded`: the next decoder, and the word's events. The words 8001 300A 4003 have two,
// at columns 10 and 11.
pub fn decode_singly(stdout: &mut impl Write) -> io::Result<()> {
    let decoder = Decoder::new();
    let first = decoder.step(0x8001);
    let second = first.next.step(0x300A);
    let third: Decoded<Decoder> = second.next.step(0x4003);
    print::first(stdout, "decode_singly: ", third.answer)
}

// The decoder after the words 8001 300A: the next word, 4003, has the same two events.
pub fn decode_after(stdout: &mut impl Write) -> io::Result<()> {
    let codec = Codec::new(Encoding::Evt3);
    if let Ok(there) = decoder_after(b"\x01\x80\x0a\x30", codec) {
        let decoded = there.step(b"\x03\x40");
        print::first(stdout, "decode_after: ", decoded.answer)?;
    }
    Ok(())
}
