// The coarse time that a decoder keeps: a time word carries it modulo a period, and the decoder
// counts the loops. One rule for every encoding, over its period and threshold.
ghost use Rattle.std.specs.Prelude.{◌≡◌, ◌+◌, ◌*◌, ◌<◌, ◌^◌};
ghost use Rattle.evt_types.specs.Clock.{clock_after, clock_in_range};

#[derive(Clone, Copy)]
pub struct Clock {
    pub coarse: u64,
    pub loops: u64,
}

// The clock after a time word that says `raw`.
pub fn after(period: u64, threshold: u64, old: u64, loops: u64, raw: u64) -> Clock
    requires { (raw + loops * period + threshold < 2 ^ 64) × (raw + loops * period + period < 2 ^ 64) × (loops + 1 < 2 ^ 64) }
    ensures { result ≡ clock_after period threshold old loops raw }
{
    let next = raw + loops * period;
    if next + threshold <= old {
        Clock {
            coarse: next + period,
            loops: loops + 1,
        }
    } else {
        Clock {
            coarse: next,
            loops,
        }
    }
}

// Whether coarse time, time and loops are in range (10).
pub fn in_range(period: u64, grain: u64, most: u64, coarse: u64, time: u64, loops: u64) -> bool
    requires { (0 < period) × (0 < grain) }
    ensures { result ≡ clock_in_range period grain most coarse time loops }
{
    loops <= most
        && coarse / period == loops
        && coarse % grain == 0
        && coarse <= time
        && time - coarse < grain
}
