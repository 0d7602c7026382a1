// EVT3: the words that take a writer into a later loop, stored, or in a dry run only counted.
ghost use Rattle.std.specs.Prelude.{◌≡◌, ◌+◌, ◌^◌, ◌≤◌, ◌<◌, length};
ghost use Rattle.std.proofs.lemmas.List.Edits.{sets};
ghost use Rattle.write_buffer.specs.Storing.{Roomy};
ghost use Rattle.evt3_lead_words.specs.Loops.{pass_bytes, passes_bytes};

use evt3_decoder::Decoder;

// Type 8 with FFF, unless that is held, and with 000: a decoder counts a loop.
fn put_pass(end: bool, out: &mut [u8], at: usize) -> usize
    requires { (at < 2 ^ 61) × Roomy out.old at (length (pass_bytes end)) }
    ensures ends { result ≡ at + length (pass_bytes end) }
    ensures stores { out.new ≡ sets out.old at (pass_bytes end) }
{
    let next = write_buffer::past(end, Decoder::WORD_SIZE, at);
    write_buffer::put16(&mut *out, at, 36863);
    write_buffer::put16(&mut *out, next, 32768);
    next + Decoder::WORD_SIZE
}

// For each of n loops.
pub fn put_passes(n: u64, end: bool, out: &mut [u8], at: usize) -> usize
    requires { (n ≤ 2 ^ 40) × (at ≤ 2 ^ 50) × Roomy out.old at (length (passes_bytes n end)) }
    ensures ends { result ≡ at + length (passes_bytes n end) }
    ensures stores { out.new ≡ sets out.old at (passes_bytes n end) }
{
    let mut a = at;
    let mut sent = end;
    for _ in 0..n {
        a = put_pass(sent, &mut *out, a);
        sent = false;
    }
    a
}
