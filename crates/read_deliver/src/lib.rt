// Handing events over into four lent columns: all of them, or none where the columns are too short
// (5). `deliver_all` has every event inside a sensor; `deliver` what a pass under a window selects,
// for reading and for both slices; plan.rt settles before which bytes are decoded for it. What is
// answered and what the columns hold is in specs/Deliver.antt of `read_capacity`.

#![tactic(auto)]

ghost use Rattle.std.specs.Prelude.{◌≤◌, ◌^◌, length};
ghost use Rattle.read_fill.specs.Decode.{Bounded, inside_events};
ghost use Rattle.read_select.specs.Pass.{Ready, handed_over};
ghost use Rattle.read_capacity.specs.Deliver.{Delivers};

use evt_codec::Codec;
use read_capacity::{need, need_all, shortest};
use read_select::Window;

mod plan;

// Writes all events inside the sensor, if the columns hold them. `requires`: every caller has refused
// longer recordings (4), and starts from a decoder in range (10).
pub fn deliver_all(
    bytes: &[u8],
    codec: Codec,
    window: Window,
    xs: &mut [u16],
    ys: &mut [u16],
    ts: &mut [i64],
    ps: &mut [u8],
) -> Result<usize, usize>
    requires short { length bytes.now ≤ 2 ^ 30 }
    requires bounded { Bounded (length bytes.now) codec }
    ensures { Delivers (inside_events window.width window.height codec bytes.now) result
        xs.old ys.old ts.old ps.old
        xs.new ys.new ts.new ps.new }
{
    let room = shortest(xs.len(), ys.len(), ts.len(), ps.len());
    let n = need_all(bytes, codec, window.width, window.height, room);
    if room < n {
        return Err(n);
    }
    let t = read_fill::fill_all(
        bytes,
        codec,
        window.width,
        window.height,
        &mut *xs,
        &mut *ys,
        &mut *ts,
        &mut *ps,
    );
    Ok(t.count)
}

// Writes what the window leaves of all the bytes. Never inlined: within `deliver` its loops have too few registers, and EVT3's takes up
// to a tenth longer.
#[inline(never)]
fn deliver_window(
    bytes: &[u8],
    codec: Codec,
    window: Window,
    number: u64,
    xs: &mut [u16],
    ys: &mut [u16],
    ts: &mut [i64],
    ps: &mut [u8],
) -> Result<usize, usize>
    requires { Ready codec number (length bytes.now) }
    ensures { Delivers (handed_over window number codec bytes.now) result
        xs.old ys.old ts.old ps.old
        xs.new ys.new ts.new ps.new }
{
    let room = shortest(xs.len(), ys.len(), ts.len(), ps.len());
    let n = need(bytes, codec, window, number, room);
    if room < n {
        return Err(n);
    }
    let t = read_select::fill(
        bytes, codec, window, number, &mut *xs, &mut *ys, &mut *ts, &mut *ps,
    );
    Ok(t.count)
}

// Writes what a pass hands over, if the columns hold it. Everything goes by a call of its own: with two
// callers the plain loops are compiled as a function of their own, which measured faster. `requires`:
// every caller has refused longer recordings (4) and a decoder out of range (10).
pub fn deliver(
    bytes: &[u8],
    codec: Codec,
    window: Window,
    number: u64,
    xs: &mut [u16],
    ys: &mut [u16],
    ts: &mut [i64],
    ps: &mut [u8],
) -> Result<usize, usize>
    requires { Ready codec number (length bytes.now) }
    ensures { Delivers (handed_over window number codec bytes.now) result
        xs.old ys.old ts.old ps.old
        xs.new ys.new ts.new ps.new }
{
    if plan::is_everything(window, codec) {
        return deliver_all(bytes, codec, window, &mut *xs, &mut *ys, &mut *ts, &mut *ps);
    }
    let p = plan::plan_window(bytes, codec, window, number);
    let from = p.from;
    let to = p.to;
    let there = p.codec;
    let part = &bytes[from..to];
    if p.plain {
        return deliver_all(part, there, window, &mut *xs, &mut *ys, &mut *ts, &mut *ps);
    }
    deliver_window(
        part, there, window, p.number, &mut *xs, &mut *ys, &mut *ts, &mut *ps,
    )
}
