// The maximum time, column and row of events, for a recording that names no size.
ghost use Rattle.std.specs.Prelude.{◌≡◌};
ghost use Rattle.evt_types.specs.Event.{Narrow, events_of};
ghost use Rattle.read_window.specs.Extent.{extent_with};

use evt_types::num::saturate;
use evt_types::vector::Vector;

// The maximum time, and the maximum column and row plus 1; 0 of no events.
#[derive(Clone, Copy)]
pub struct Extent {
    pub latest: u64,
    pub width: u64,
    pub height: u64,
}

// With the events of v too.
pub fn see(e: Extent, v: Vector) -> Extent
    requires { Narrow v }
    ensures { result ≡ extent_with e (events_of v) }
{
    let mask = v.mask;
    if mask == 0 {
        return e;
    }
    let top = 63 - u64::leading_zeros(mask) as u64;
    let x = saturate(v.x + top);
    Extent {
        latest: e.latest.max(v.t),
        width: e.width.max(x + 1),
        height: e.height.max(v.y + 1),
    }
}
