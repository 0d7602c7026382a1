// EVT3 for counting loops: how many events of a word lie inside the sensor, by a table of bit counts.
// specs/Evt3Inside.antt says that it is so many.
ghost use Rattle.std.specs.Prelude.{◌≡◌, ◌<◌, ◌^◌};
ghost use Rattle.std.specs.Int.Count.{ones};
ghost use Rattle.read_count.specs.Evt3Inside.{bit_counts, inside_count};

use evt_types::fields::bits;

// How many bits are set in each number of six bits.
const BIT_COUNTS: [usize; 64] = [
    0, 1, 1, 2, 1, 2, 2, 3, 1, 2, 2, 3, 2, 3, 3, 4, 1, 2, 2, 3, 2, 3, 3, 4, 2, 3, 3, 4, 3, 4, 4, 5,
    1, 2, 2, 3, 2, 3, 3, 4, 2, 3, 3, 4, 3, 4, 4, 5, 2, 3, 3, 4, 3, 4, 4, 5, 3, 4, 4, 5, 4, 5, 5, 6,
];

// A loop holds it: where a constant is indexed it is made anew.
pub fn bit_counts() -> [usize; 64]
    ensures { result ≡ bit_counts }
{
    BIT_COUNTS
}

// How many of a mask's events, from column x on in row y, lie inside.
pub fn count_inside(
    x: u64,
    y: u64,
    mask: u64,
    bound: u64,
    height: u64,
    counts: &[usize; 64],
) -> usize
    requires small { (x < 65536) × (mask < 2 ^ 12) }
    requires table { counts.now ≡ bit_counts }
    ensures { result ≡ inside_count x y mask bound height }
{
    let kept = read_columns::clip(x, y, mask, bound, height);
    count_bits(kept, counts)
}

// How many bits are set.
fn count_bits(mask: u64, counts: &[usize; 64]) -> usize
    requires small { mask < 2 ^ 12 }
    requires table { counts.now ≡ bit_counts }
    ensures { result ≡ ones mask }
{
    let low = bits(mask, 0, 6) as usize;
    let high = bits(mask, 6, 6) as usize;
    counts[low] + counts[high]
}
