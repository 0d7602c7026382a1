// EVT3: the words of one run of events, stored, or in a dry run only counted: its columns as single
// events or as vectors, after the words of time and row. `put_run` is proved to store the words that
// `evt3_lead_words` defines. specs/Parts.antt has their bytes part by part, specs/Masks.antt the
// masks, specs/Loops.antt the single events.

#![tactic(auto)]

ghost use Rattle.std.specs.Prelude.{◌≡◌, cond, ◌++◌, ◌+◌, ◌*◌, ◌-◌, ◌/◌, ◌%◌, ◌^◌, ◌≤◌, ◌<◌, ltb, length};
ghost use Rattle.std.proofs.lemmas.List.Edits.{sets};
ghost use Rattle.laws_stream.specs.Part.{between};
ghost use Rattle.laws_stream.specs.Mask.{Inc};
ghost use Rattle.evt_types.specs.Layout.{word_size3, word3, column_word3};
ghost use Rattle.write_buffer.specs.Storing.{Roomy};
ghost use Rattle.evt3_run_rules.specs.Runs.{Rising};
ghost use Rattle.evt3_lead_words.specs.Evt3.{single_word3, base_word3};
ghost use Rattle.evt3_lead_words.specs.Leads.{leads_bytes};
ghost use Rattle.evt3_run_words.specs.Parts.{single_bytes, mask_bytes, body_bytes, Part};
ghost use Rattle.evt3_run_words.specs.Masks.{digit_bytes, NextMasks};

use evt_types::fields::bits;
use evt3_decoder::Decoder;
use evt3_lead_words::put_leads;

// The masks of five vector words, a bit for each of 60 columns, and the index of the first event
// after these.
#[derive(Clone, Copy)]
pub struct MaskBits {
    pub mask: u64,
    pub next: usize,
}

// A word of a type that has a polarity and a column.
fn column_word(kind: u16, p: u8, x: u16) -> u16
    requires { kind < 16 }
    ensures { result ≡ column_word3 kind (p % 2) (x % 2048) }
{
    (kind << 12) + (((p & 1) as u16) << 11) + (x & 2047)
}

fn single_word(p: u8, x: u16) -> u16
    ensures { result ≡ single_word3 p x }
{
    column_word(2, p, x)
}

fn base_word(p: u8, x: u16) -> u16
    ensures { result ≡ base_word3 p x }
{
    column_word(3, p, x)
}

// The word of the twelve low bits of a mask.
fn mask_word(mask: u64) -> u16
    ensures { result ≡ word3 4 (mask % 4096) }
{
    (4 << 12) + bits(mask, 0, 12) as u16
}

// A word for each event from i up to end.
fn put_singles(p: u8, xs: &[u16], i: usize, end: usize, out: &mut [u8], at: usize) -> usize
    requires { Part xs.now i end at × Roomy out.old at (length (single_bytes p (between xs.now i end))) }
    ensures ends { result ≡ at + length (single_bytes p (between xs.now i end)) }
    ensures stores { out.new ≡ sets out.old at (single_bytes p (between xs.now i end)) }
{
    let mut a = at;
    for j in i..end {
        write_buffer::put16(&mut *out, a, single_word(p, xs[j]));
        a += Decoder::WORD_SIZE;
    }
    a
}

fn bit(d: u64) -> u64
    requires { d < 60 }
    ensures { result ≡ 2 ^ d }
{
    1 << d
}

// The columns from `from` on that lie below base + 60, as bits: five masks at once.
fn next_masks(xs: &[u16], from: usize, end: usize, base: u64) -> MaskBits
    requires { Part xs.now from end 0 × (base ≤ 2 ^ 20) × Inc base (2 ^ 16) (between xs.now from end) }
    ensures { NextMasks xs.now from end base result }
{
    let mut mask: u64 = 0;
    for next in from..end {
        let x = xs[next] as u64;
        if base + 60 <= x {
            return MaskBits { mask, next };
        }
        mask += bit(x - base);
    }
    MaskBits { mask, next: end }
}

// The words of k masks of 12 columns, whose bits are those of `mask`.
fn put_digits(mask: u64, k: u64, out: &mut [u8], at: usize) -> usize
    requires { (k ≤ 2 ^ 20) × (at ≤ 2 ^ 50) × Roomy out.old at (word_size3 * k) }
    ensures ends { result ≡ at + word_size3 * k }
    ensures stores { out.new ≡ sets out.old at (digit_bytes k mask) }
{
    let mut a = at;
    let mut m = mask;
    for _ in 0..k {
        write_buffer::put16(&mut *out, a, mask_word(m));
        m >>= 12;
        a += Decoder::WORD_SIZE;
    }
    a
}

// The words of k masks of 12 columns from base on.
fn put_masks(
    xs: &[u16],
    i: usize,
    end: usize,
    base: u64,
    k: u64,
    out: &mut [u8],
    at: usize,
) -> usize
    requires { Part xs.now i end at × (base + 12 * k ≤ 2 ^ 20) × Inc base (2 ^ 16) (between xs.now i end)
        × Roomy out.old at (length (mask_bytes k base (between xs.now i end))) }
    ensures ends { result ≡ at + length (mask_bytes k base (between xs.now i end)) }
    ensures stores { out.new ≡ sets out.old at (mask_bytes k base (between xs.now i end)) }
{
    let mut a = at;
    let mut c = i;
    let mut b = base;
    for _ in 0..k / 5 {
        let five = next_masks(xs, c, end, b);
        a = put_digits(five.mask, 5, &mut *out, a);
        c = five.next;
        b += 60;
    }
    let last = next_masks(xs, c, end, b);
    put_digits(last.mask, k % 5, &mut *out, a)
}

// How many masks of 12 columns reach from the first column to the last.
fn mask_count(first: u64, last: u64) -> u64
    requires { last < 2 ^ 16 }
    ensures { result ≡ (last - first + 12) / 12 }
{
    (last.saturating_sub(first) + 12) / 12
}

// Whether n events are more than the words of a vector.
fn vector_pays(n: u64, first: u64, last: u64) -> bool
    requires { last < 2 ^ 16 }
    ensures { result ≡ ltb (1 + (last - first + 12) / 12) n }
{
    1 + mask_count(first, last) < n
}

// The words of one or two events: a single one is stored twice, which is faster than a branch.
fn put_pair(p: u8, xs: &[u16], i: usize, end: usize, out: &mut [u8], at: usize) -> usize
    requires { Part xs.now i end at × (i < end) × (end ≤ i + 2) × Roomy out.old at (length (single_bytes p (between xs.now i end))) }
    ensures ends { result ≡ at + length (single_bytes p (between xs.now i end)) }
    ensures stores { out.new ≡ sets out.old at (single_bytes p (between xs.now i end)) }
{
    let j = end - 1;
    let last = at + Decoder::WORD_SIZE * (j - i);
    write_buffer::put16(&mut *out, at, single_word(p, xs[i]));
    write_buffer::put16(&mut *out, last, single_word(p, xs[j]));
    last + Decoder::WORD_SIZE
}

// The words of the columns from i up to end, a run. One or two, which most runs have, are tested first:
// no vector pays for them.
fn put_body(p: u8, xs: &[u16], i: usize, end: usize, out: &mut [u8], at: usize) -> usize
    requires { Part xs.now i end (at + word_size3) × (i < end) × Rising (between xs.now i end)
        × Roomy out.old at (length (body_bytes p (between xs.now i end))) }
    ensures ends { result ≡ at + length (body_bytes p (between xs.now i end)) }
    ensures stores { out.new ≡ sets out.old at (body_bytes p (between xs.now i end)) }
{
    let n = end - i;
    if n <= 2 {
        return put_pair(p, xs, i, end, &mut *out, at);
    }
    let x = xs[i];
    let first = x as u64;
    let last = xs[end - 1] as u64;
    if vector_pays(n as u64, first, last) {
        let k = mask_count(first, last);
        write_buffer::put16(&mut *out, at, base_word(p, x));
        return put_masks(xs, i, end, first, k, &mut *out, at + Decoder::WORD_SIZE);
    }
    put_singles(p, xs, i, end, &mut *out, at)
}

// How many bytes the words of n columns have, a run.
fn body_size(n: u64, first: u64, last: u64) -> usize
    requires { (last < 2 ^ 16) × (n ≤ 2 ^ 28) }
    ensures { result ≡ word_size3 * cond (ltb (1 + (last - first + 12) / 12) n) (1 + (last - first + 12) / 12) n }
{
    let words = n.min(1 + mask_count(first, last));
    Decoder::WORD_SIZE * words as usize
}

// The words of the run from i up to end.
pub fn put_run(
    high: u64,
    low: u64,
    row: u64,
    t: u64,
    y: u16,
    p: u8,
    xs: &[u16],
    i: usize,
    end: usize,
    out: &mut [u8],
    at: usize,
) -> usize
    requires { Part xs.now i end (at + 8) × (i < end) × Rising (between xs.now i end)
        × Roomy out.old at (length (leads_bytes high low row t y ++ body_bytes p (between xs.now i end))) }
    ensures ends { result ≡ at + length (leads_bytes high low row t y ++ body_bytes p (between xs.now i end)) }
    ensures stores { out.new ≡ sets out.old at (leads_bytes high low row t y ++ body_bytes p (between xs.now i end)) }
{
    let a = put_leads(high, low, row, t, y, &mut *out, at);
    if 0 < out.len() {
        put_body(p, xs, i, end, &mut *out, a)
    } else {
        a + body_size((end - i) as u64, xs[i] as u64, xs[end - 1] as u64)
    }
}
