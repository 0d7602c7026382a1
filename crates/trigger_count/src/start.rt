// Where a decoder starts, by words of `size` bytes.
ghost use Rattle.std.specs.Prelude.{◌≡◌, ◌-◌, ◌/◌, ◌<◌, length, slice_index};
ghost use Rattle.trigger_count.specs.Start.{Behind};

const TYPE: u8 = 8;

// A word's type, by its last byte.
fn kind(word: &[u8]) -> u8
    requires { 0 < length word.now }
    ensures { result ≡ slice_index word.now (length word.now - 1) / 16 }
{
    word[word.len() - 1] / 16
}

// The index behind the first word of type 8; where there is none, no word follows it.
pub fn behind_first_time(bytes: &[u8], size: usize) -> usize
    requires { 0 < size }
    ensures { Behind size bytes.now result }
{
    let early = bytes
        .chunks_exact(size)
        .take_while(
            |word| -> bool
                requires { 0 < length word.now.now }
            { kind(word) != TYPE },
        )
        .count();
    bytes.len().min((early + 1) * size)
}
