// The plain loops over the words of a part of a recording that write all events inside a sensor to
// four columns. They serve unlimited reading; limits and slices go through the window, and the crate
// `read_count` counts. specs/Decode.antt says what they yield, specs/Laws.antt what a caller can use of it.
//
// They keep a `requires`: no sum wraps, and the columns suffice. The caller has judged its decoder
// (10) and its columns (5) before, and specs/Laws.antt shows that this is enough.

#![tactic(auto)]

ghost use Rattle.std.specs.Prelude.{◌≡◌, length};
ghost use Rattle.evt_codec.specs.Codec.{in_range_c};
ghost use Rattle.evt_types.specs.Columns.{Wrote};
ghost use Rattle.read_fill.specs.Iteration.{Fits};
ghost use Rattle.read_fill.specs.Decode.{Bounded, Fitting, inside_events, filled_all_of};

use evt_codec::Codec;
use evt_codec::word_loop::{Evt2Loop, Evt21Loop};
use evt3_decoder::widen;

pub mod extent;
pub mod fill;

// What filling leaves: how many events were written, and the decoder.
#[derive(Clone, Copy)]
pub struct FilledAll {
    pub count: usize,
    pub codec: Codec,
}

// Whether the decoder is in range (10). If so, a loop takes it with all bytes that may be read.
pub fn in_range(codec: Codec) -> bool
    ensures { (result ≡ in_range_c codec) × Fitting codec }
{
    match codec {
        Codec::Evt2(d) => d.in_range(),
        Codec::Evt21(d) => d.in_range(),
        Codec::Evt3(d) => d.in_range(),
    }
}

// Writes all events of the bytes inside the sensor.
pub fn fill_all(
    bytes: &[u8],
    codec: Codec,
    width: u64,
    height: u64,
    xs: &mut [u16],
    ys: &mut [u16],
    ts: &mut [i64],
    ps: &mut [u8],
) -> FilledAll
    requires bounded { Bounded (length bytes.now) codec }
    requires fit { Fits (length (inside_events width height codec bytes.now)) (length xs.old)
        (length ys.old) (length ts.old) (length ps.old) }
    ensures filled { result ≡ filled_all_of width height codec bytes.now }
    ensures wrote { Wrote (inside_events width height codec bytes.now) 0
        xs.old ys.old ts.old ps.old
        xs.new ys.new ts.new ps.new }
{
    match codec {
        Codec::Evt2(d) => {
            fill::words(
                bytes,
                Evt2Loop::new(d),
                width,
                height,
                &mut *xs,
                &mut *ys,
                &mut *ts,
                &mut *ps,
            )
        }
        Codec::Evt21(d) => {
            fill::words(
                bytes,
                Evt21Loop::new(d),
                width,
                height,
                &mut *xs,
                &mut *ys,
                &mut *ts,
                &mut *ps,
            )
        }
        Codec::Evt3(d) => {
            fill::words(
                bytes,
                widen(d),
                width,
                height,
                &mut *xs,
                &mut *ys,
                &mut *ts,
                &mut *ps,
            )
        }
    }
}
