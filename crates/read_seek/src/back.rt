// The row, the base column and the polarity of a started EVT3 decoder behind some words, looked for
// from their end back: the last words that set them are near.
ghost use Rattle.std.specs.Prelude.{◌≡◌};
ghost use Rattle.evt_types.specs.Layout.{word_size3};
ghost use Rattle.laws_stream.specs.Words.{words_of};
ghost use Rattle.read_seek.specs.Back.{row_after, base_after, width};

use evt_types::fields::bits;
use evt_types::num::saturating_add;
use evt_types::words;
use evt3_decoder::Decoder;

#[derive(Clone, Copy)]
pub struct Column {
    pub x: u16,
    pub p: bool,
}

// The last row word's, or y.
pub fn row(front: &[u8], y: u16) -> u16
    ensures { result ≡ row_after y (words_of word_size3 front.now) }
{
    for k in (0..front.len() / Decoder::WORD_SIZE).rev() {
        let w = words::two_at(front, k * Decoder::WORD_SIZE);
        let kind = bits(w, 12, 4);
        if kind == 0 {
            return bits(w, 0, 11) as u16;
        }
    }
    y
}

// By how much a word moves the base column.
fn moves(kind: u64) -> u64
    ensures { result ≡ width kind }
{
    match kind {
        4 => 12,
        5 => 8,
        _ => 0,
    }
}

// The last base word's and what vectors after it add, or x and p with all vectors.
pub fn base(front: &[u8], x: u16, p: bool) -> Column
    ensures { result ≡ base_after (record { x = x; p = p }) (words_of word_size3 front.now) }
{
    let mut by: u64 = 0;
    for k in (0..front.len() / Decoder::WORD_SIZE).rev() {
        let w = words::two_at(front, k * Decoder::WORD_SIZE);
        let kind = bits(w, 12, 4);
        if kind == 3 {
            let sign = bits(w, 11, 1);
            return Column {
                x: saturating_add(bits(w, 0, 11), by) as u16,
                p: sign == 1,
            };
        }
        by = saturating_add(by, moves(kind));
    }
    Column {
        x: saturating_add(x as u64, by) as u16,
        p,
    }
}
