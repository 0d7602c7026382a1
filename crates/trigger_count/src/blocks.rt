// How many words have the type of a trigger, by blocks of 64 bytes. Most recordings have few or none, so
// the bytes are to pass at the speed of the memory: a table tells which bytes of a block are the last of
// a word, and all bytes of a block are compared and added up without a branch, many at once, whatever
// the size of a word. specs/Blocks.antt shows that the sum is the number of words.
ghost use Rattle.std.specs.Prelude.{◌≡◌, ◌≤◌, ◌<◌, length};
ghost use Rattle.evt_types.specs.Layout.{trigger_type};
ghost use Rattle.trigger_count.specs.Types.{type_count};
ghost use Rattle.trigger_count.specs.Table.{Block, LastBytes};
ghost use Rattle.trigger_count.specs.Blocks.{adds_up, tally, Flags};

use evt_types::trigger;

// As a byte, since bytes are compared.
const TYPE: u8 = trigger::TYPE as u8;

// 1 for each last byte of a word in a block, else 0.
fn last_bytes(size: usize) -> [u8; 64]
    requires { 0 < size }
    ensures { LastBytes size result }
{
    let mut flags = [0; 64];
    for (j, flag) in flags.iter_mut().enumerate() {
        *flag = ((j + 1) % size == 0) as u8;
    }
    flags
}

// What a byte adds: its flag, if it has the type.
fn adds_up(flag: u8, byte: u8) -> u8
    ensures { result ≡ adds_up flag byte }
{
    if byte / 16 == TYPE { flag } else { 0 }
}

// The sum over at most 64 bytes: a byte holds it, so that many are added at once.
fn sum(bytes: &[u8], flags: &[u8; 64]) -> u8
    requires few { length bytes.now ≤ 64 }
    requires flags { Flags flags.now }
    ensures { result ≡ tally flags.now bytes.now }
{
    let mut n: u8 = 0;
    for (byte, flag) in bytes.iter().zip(flags) {
        n += adds_up(*flag, *byte);
    }
    n
}

// How many whole words of `size` bytes have type 10.
// `requires`: a block has a whole number of words, as with every size of the encodings.
pub fn count(bytes: &[u8], size: usize) -> usize
    requires { Block size }
    ensures { result ≡ type_count size trigger_type bytes.now }
{
    let flags = last_bytes(size);
    let blocks = bytes.chunks_exact(64);
    let rest = blocks.remainder();
    let mut n: usize = 0;
    for block in blocks {
        n += sum(block, &flags) as usize;
    }
    n + sum(rest, &flags) as usize
}
