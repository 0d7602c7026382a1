// What a decoder's triggers start from: whether it is started, its times.
ghost use Rattle.std.specs.Prelude.{◌≡◌};
ghost use Rattle.trigger_fill.specs.Start.{outset_of};

use crate::times::Times;
use evt_codec::Codec;

#[derive(Clone, Copy)]
pub struct Outset {
    pub started: bool,
    pub times: Times,
}

pub fn outset_of(codec: Codec) -> Outset
    ensures { result ≡ outset_of codec }
{
    match codec {
        Codec::Evt2(d) => Outset {
            started: d.initialised,
            times: Times::set_to(d.time_high, d.high_loops),
        },
        Codec::Evt21(d) => Outset {
            started: d.initialised,
            times: Times::set_to(d.time_high, d.high_loops),
        },
        Codec::Evt3(d) => Outset {
            started: d.initialised,
            times: Times {
                base: d.time_base,
                time: d.time,
                loops: d.high_loops,
            },
        },
    }
}
