// Passes over the words of a part of a recording under a window: which events are handed over, by
// number and by time, among those inside the sensor. One rule serves reading with a limit, slices
// by number and by time, and the size of a recording that names none. specs/Pass.antt has what a
// pass answers, specs/Uses.antt what it comes to in each use.

#![tactic(auto)]

ghost use Rattle.std.specs.Prelude.{◌≡◌, length};
ghost use Rattle.evt_codec.specs.declared.codec.Codec.TheVariants.{Evt2};
ghost use Rattle.evt_types.specs.Columns.{Wrote};
ghost use Rattle.read_select.specs.Pass.{Ready, Fits, handed_over, surveyed, filled};

use evt_codec::Codec;
use evt_codec::word_loop::{Evt2Loop, Evt21Loop};
use evt2_decoder::Evt2Decoder;
use evt3_decoder::widen;
pub use read_window::Window;

// What a survey tells: the next event's number, how many events were handed over, their maximum
// time, column plus 1 and row plus 1 (0 of no events), the words consumed, and the decoder.
#[derive(Clone, Copy)]
pub struct SurveyTotals {
    pub number: u64,
    pub count: usize,
    pub latest: u64,
    pub width: u64,
    pub height: u64,
    pub consumed: usize,
    pub codec: Codec,
}

// What a pass that fills columns tells.
#[derive(Clone, Copy)]
pub struct Filled {
    pub number: u64,
    pub count: usize,
    pub consumed: usize,
    pub codec: Codec,
}

mod passes;
mod word;

// Counts what a pass hands over, from a decoder and the next event's number, and alters nothing.
// `Ready` is every caller's to show: it refuses a decoder out of range (10) and more than 2^30
// bytes (4) first.
pub fn survey(bytes: &[u8], codec: Codec, win: Window, number: u64) -> SurveyTotals
    requires { Ready codec number (length bytes.now) }
    ensures { result ≡ surveyed win number codec bytes.now }
{
    match codec {
        Codec::Evt2(d) => passes::survey(bytes, Evt2Loop::new(d), win, number),
        Codec::Evt21(d) => passes::survey(bytes, Evt21Loop::new(d), win, number),
        Codec::Evt3(d) => passes::survey(bytes, widen(d), win, number),
    }
}

// Writes what the same pass hands over to four columns from index 0 on. `Fits` is every caller's to
// show: it surveys first, and refuses columns that are too short (5).
pub fn fill(
    bytes: &[u8],
    codec: Codec,
    win: Window,
    number: u64,
    xs: &mut [u16],
    ys: &mut [u16],
    ts: &mut [i64],
    ps: &mut [u8],
) -> Filled
    requires ready { Ready codec number (length bytes.now) }
    requires fit { Fits (length (handed_over win number codec bytes.now)) (length xs.old)
        (length ys.old) (length ts.old) (length ps.old) }
    ensures filled { result ≡ filled win number codec bytes.now }
    ensures wrote { Wrote (handed_over win number codec bytes.now) 0
        xs.old ys.old ts.old ps.old
        xs.new ys.new ts.new ps.new }
{
    match codec {
        Codec::Evt2(d) => {
            fill_evt2(
                bytes, d, win, number, &mut *xs, &mut *ys, &mut *ts, &mut *ps,
            )
        }
        Codec::Evt21(d) => {
            passes::fill(
                bytes,
                Evt21Loop::new(d),
                win,
                number,
                &mut *xs,
                &mut *ys,
                &mut *ts,
                &mut *ps,
            )
        }
        Codec::Evt3(d) => {
            passes::fill(
                bytes,
                widen(d),
                win,
                number,
                &mut *xs,
                &mut *ys,
                &mut *ts,
                &mut *ps,
            )
        }
    }
}

// Of EVT2. Never inlined: beside the other two its loop has too few registers, and takes up to a third longer.
#[inline(never)]
fn fill_evt2(
    bytes: &[u8],
    d: Evt2Decoder,
    win: Window,
    number: u64,
    xs: &mut [u16],
    ys: &mut [u16],
    ts: &mut [i64],
    ps: &mut [u8],
) -> Filled
    requires ready { Ready (Evt2 d) number (length bytes.now) }
    requires fit { Fits (length (handed_over win number (Evt2 d) bytes.now)) (length xs.old)
        (length ys.old) (length ts.old) (length ps.old) }
    ensures filled { result ≡ filled win number (Evt2 d) bytes.now }
    ensures wrote { Wrote (handed_over win number (Evt2 d) bytes.now) 0
        xs.old ys.old ts.old ps.old
        xs.new ys.new ts.new ps.new }
{
    passes::fill(
        bytes,
        Evt2Loop::new(d),
        win,
        number,
        &mut *xs,
        &mut *ys,
        &mut *ts,
        &mut *ps,
    )
}
