// EVT3: the words of time and row that lead a run, stored, or in a dry run only counted: `put_leads`
// is proved to store those that are due, `loops::put_passes` those that pass into a later loop.
// specs/Evt3.antt says which words a writer sends of a run, each with a note of the events that it
// carries, specs/Leads.antt which bytes its leading words have, specs/Loops.antt those of the loops.

#![tactic(auto)]

ghost use Rattle.std.specs.Prelude.{◌≡◌, cond, ◌+◌, ◌^◌, ◌<◌, length};
ghost use Rattle.std.proofs.lemmas.List.Edits.{sets};
ghost use Rattle.laws_stream.specs.Words.{bytes};
ghost use Rattle.evt_types.specs.Layout.{word_size3};
ghost use Rattle.write_buffer.specs.Storing.{Roomy};
ghost use Rattle.evt3_lead_words.specs.Evt3.{high_word3, low_word3, row_word3};
ghost use Rattle.evt3_lead_words.specs.Leads.{due_bytes3, leads_bytes, Leads};

use evt_types::fields::bits;
use evt3_decoder::Decoder;

pub mod loops;

fn high_word(t: u64) -> u16
    ensures { result ≡ high_word3 t }
{
    (8 << 12) + bits(t / Decoder::GRAIN, 0, 12) as u16
}

fn low_word(t: u64) -> u16
    ensures { result ≡ low_word3 t }
{
    (6 << 12) + (t % Decoder::GRAIN) as u16
}

fn row_word(y: u16) -> u16
    ensures { result ≡ row_word3 y }
{
    y & 2047
}

// After a type 8 the low half counts as 0.
fn low_kept(sent: bool, low: u64) -> u64
    ensures { result ≡ cond sent low 0 }
{
    if sent { low } else { 0 }
}

// A word, and the place after it, which is `at` again where its content was sent: the next word
// then takes its place.
fn put_lead(sent: bool, w: u16, out: &mut [u8], at: usize) -> usize
    requires { (at < 2 ^ 61) × Roomy out.old at word_size3 }
    ensures ends { result ≡ at + length (due_bytes3 sent w) }
    ensures stores { out.new ≡ sets out.old at (bytes word_size3 w) }
{
    write_buffer::put16(&mut *out, at, w);
    write_buffer::past(sent, Decoder::WORD_SIZE, at)
}

// Time and row, where they changed: `high`, `low` and `row` were sent last. A word has to follow.
pub fn put_leads(high: u64, low: u64, row: u64, t: u64, y: u16, out: &mut [u8], at: usize) -> usize
    requires { (at < 2 ^ 60) × Roomy out.old at (length (leads_bytes high low row t y) + word_size3) }
    ensures { Leads high low row t y at out.old result out.new }
{
    let sent = high == t / Decoder::GRAIN;
    let low_sent = low_kept(sent, low) == t % Decoder::GRAIN;
    let row_sent = row == y as u64;
    let a = put_lead(sent, high_word(t), &mut *out, at);
    let b = put_lead(low_sent, low_word(t), &mut *out, a);
    put_lead(row_sent, row_word(y), &mut *out, b)
}
