// What reading answers, and all that it settles without touching a column: whether words are read at
// all, the window of a size and a limit, and the answer to what was written.
// specs/Read.antt has the answers by the table of docs/RULES.md, specs/Laws.antt that the parts come to them.

#![tactic(auto)]

ghost use Rattle.std.specs.Prelude.{◌≡◌, ◌≤◌, length};
ghost use Rattle.read_rules.specs.Laws.{sensor_of, most_of, window_of, Holds, size_of, settled_of, judged_of};

use evt_types::{Encoding, MOST_BYTES, Refusal, SensorSize};
use read_fill::extent;
use read_select::Window;

// The Rust's options that concern reading.
#[derive(Clone, Copy)]
pub struct LoadOptions {
    pub sensor_size: Option<SensorSize>,
    pub max_events: Option<usize>,
}

#[derive(Clone, Copy)]
pub struct Reading {
    pub encoding: Encoding,
    pub width: usize,
    pub height: usize,
    pub count: usize,
}

// n bytes of words with this size: 4, then 1 for a zero size.
pub fn judge(n: usize, size: Option<SensorSize>) -> Result<(), Refusal>
    ensures { result ≡ judged_of n size }
{
    if MOST_BYTES < n {
        return Err(Refusal::TooLong);
    }
    if header::has_zero(size) {
        return Err(Refusal::InvalidSensorSize);
    }
    Ok(())
}

// A sensor of 65,536 x 65,536, which holds every event, where the size is unknown.
fn sensor_of(size: Option<SensorSize>) -> SensorSize
    ensures { result ≡ sensor_of size }
{
    size.unwrap_or(SensorSize {
        width: 65536,
        height: 65536,
    })
}

fn most_of(limit: Option<usize>) -> u64
    ensures { result ≡ most_of limit }
{
    limit.map_or(u64::MAX, |n| n as u64)
}

// The window of the first events inside the sensor, as many as the limit leaves.
pub fn window_of(size: Option<SensorSize>, limit: Option<usize>) -> Window
    ensures { result ≡ window_of size limit }
{
    let sensor = sensor_of(size);
    Window {
        width: sensor.width as u64,
        height: sensor.height as u64,
        n0: 0,
        n1: most_of(limit),
        t0: 0,
        t1: u64::MAX,
    }
}

// The caller's size, or what n events that were written derive; none is no size.
fn size_of(
    size: Option<SensorSize>,
    n: usize,
    xs: &[u16],
    ys: &[u16],
) -> Result<SensorSize, Refusal>
    requires { (n ≤ length xs.now) × (n ≤ length ys.now) }
    ensures { result ≡ size_of size n xs.now ys.now }
{
    match size {
        Some(size) => Ok(size),
        None if n == 0 => Err(Refusal::InvalidSensorSize),
        None => Ok(SensorSize {
            width: extent::greatest(&xs[..n]) as usize + 1,
            height: extent::greatest(&ys[..n]) as usize + 1,
        }),
    }
}

// The answer to what was delivered: 5, 1 for no event, or the reading. `requires`: what was written is
// there.
pub fn settle(
    encoding: Encoding,
    size: Option<SensorSize>,
    delivered: Result<usize, usize>,
    xs: &[u16],
    ys: &[u16],
) -> Result<Reading, Refusal>
    requires { Holds delivered (length xs.now) (length ys.now) }
    ensures { result ≡ settled_of encoding size delivered xs.now ys.now }
{
    let count = delivered.map_err(Refusal::ColumnsTooShort)?;
    let SensorSize { width, height } = size_of(size, count, xs, ys)?;
    Ok(Reading {
        encoding,
        width,
        height,
        count,
    })
}
