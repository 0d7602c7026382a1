// EVT2.1 for counting loops: how many events of a word lie inside the sensor.
ghost use Rattle.std.specs.Prelude.{◌≡◌, ◌<◌, ◌^◌};
ghost use Rattle.read_count.specs.Evt3Inside.{inside_count};

// How many of a mask's events, from column x on in row y, lie inside.
pub fn count_inside(x: u64, y: u64, mask: u64, bound: u64, height: u64) -> usize
    requires { (x < 65536) × (mask < 2 ^ 32) }
    ensures { result ≡ inside_count x y mask bound height }
{
    let kept = read_columns::clip(x, y, mask, bound, height);
    u64::count_ones(kept) as usize
}
