// Blocks of words none of which is notable, passed over fast: the loop over a block's words has no
// branch, and the words of each format have a loop of their own, made of vector instructions.
ghost use Rattle.std.specs.Prelude.{◌≡◌, ◌<◌, ◌*◌, ◌^◌, length};
ghost use Rattle.laws_stream.specs.Words.{words_of};
ghost use Rattle.evt_types.specs.Ahead.{ahead};
ghost use Rattle.trigger_fill.specs.Follow.{Leading};
ghost use Rattle.trigger_fill.specs.Calm.{notable_top, notable};
ghost use Rattle.trigger_fill.specs.Find.{tally};

use crate::form::Format;
use crate::times;
use evt_types::fields::bits;
use evt_types::trigger;

// By a word's highest byte: a trigger, or a time word on the other side of where a period is late.
fn is_notable(late: bool, top: u64) -> bool
    ensures { result ≡ notable_top late top }
{
    let kind = top / 16;
    if kind == trigger::TYPE {
        return true;
    }
    if late {
        return kind == times::TYPE && top != 143;
    }
    top == 143
}

// Of a word's bytes.
pub fn is_notable_word<E: Format>(late: bool, word: &[u8]) -> bool
    ensures { result ≡ notable late E.FORM (ahead E.FORM.size word.now 0) }
{
    let top = bits(E::word(word, 0), E::FORM.shift - 4, 8);
    is_notable(late, top)
}

// How many words of a block are notable. A count of 32 bits takes the narrowest vectors: `count()` has
// 64.
fn notable_words<E: Format>(late: bool, block: &[u8]) -> u32
    requires { length block.now < 2 ^ 32 }
    ensures { result ≡ tally (notable late E.FORM) (words_of E.FORM.size block.now) }
{
    let mut count: u32 = 0;
    for word in block.chunks_exact(E::FORM.size) {
        count += is_notable_word::<E>(late, word) as u32;
    }
    count
}

// The index behind the first blocks of 64 words that have no notable word.
pub fn over<E: Format>(late: bool, s: &[u8]) -> usize
    ensures { Leading (notable late E.FORM) E.FORM.size s.now result }
{
    let size = 64 * E::FORM.size;
    let calm = s
        .chunks_exact(size)
        .take_while(
            |block| -> bool
                requires { length block.now.now < 2 ^ 32 }
            { notable_words::<E>(late, block) == 0 },
        )
        .count();
    calm * size
}
