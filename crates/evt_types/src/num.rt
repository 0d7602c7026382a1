// Numbers: columns that saturate at 65,535, places inside a sensor, times as natural numbers.
ghost use Rattle.std.specs.Prelude.{◌≡◌, ◌&&◌, ◌+◌, ◌-◌, ◌≤◌, min, max};
ghost use Rattle.evt_types.specs.Num.{is_inside, natural};

// A column, at most 65,535.
pub fn saturate(x: u64) -> u64
    ensures { result ≡ min x 65535 }
{
    x.min(65535)
}

// A column n to the right of x, at most 65,535.
pub fn saturating_add(x: u64, n: u64) -> u64
    requires { n ≤ 65535 }
    ensures { result ≡ min (x + n) 65535 }
{
    if x <= 65535 - n { x + n } else { 65535 }
}

// Whether a place lies inside a sensor of width x height.
pub fn inside(x: u64, y: u64, width: u64, height: u64) -> bool
    ensures { result ≡ is_inside width height x y }
{
    x < width && y < height
}

// A time as a natural number: 0 where it is negative.
pub fn natural_time(t: i64) -> u64
    ensures { result ≡ natural t }
{
    t.max(0) as u64
}
