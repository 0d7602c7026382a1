// Counting events and their maximum time: a loop for each encoding, since each has the step that measured fastest for it: EVT2 tests a
// word by two comparisons before it is decoded, EVT2.1 clips a mask, EVT3 goes by tables.
ghost use Rattle.std.specs.Prelude.{◌≡◌, ◌/◌, length};
ghost use Rattle.evt_types.specs.Layout.{word_size2, word_size21, word_size3};
ghost use Rattle.laws_stream.specs.Order.{greatest};
ghost use Rattle.laws_stream.specs.Stream.{after};
ghost use Rattle.evt2_decoder.specs.Evt2.{reader2};
ghost use Rattle.evt21_decoder.specs.Evt21.{reader21};
ghost use Rattle.evt3_decoder.specs.Evt3.{reader3};
ghost use Rattle.evt2_decoder.specs.Range.{Bounded2};
ghost use Rattle.evt21_decoder.specs.Range.{Bounded21};
ghost use Rattle.evt3_decoder.specs.Range.{Bounded3};
ghost use Rattle.read_columns.specs.Inside.{clock};
ghost use Rattle.read_fill.specs.Iteration.{inside_all};

use crate::{
    LAST_BYTE2, LAST_BYTE3, LAST_BYTE21, evt2_inside, evt3_inside, evt3_step, evt21_inside,
};
use evt_types::fields::bits;
use evt_types::words;
use evt2_decoder::{Evt2Decoder, advance};
use evt3_decoder::{Decoder, widen};
use evt21_decoder::{Evt21Decoder, of_evt2};

// What counting leaves, with an encoding's own decoder.
#[derive(Clone, Copy)]
pub struct Counted<D> {
    pub count: usize,
    pub latest: u64,
    pub decoder: D,
}

// Never inlined: beside it the other two loops have too few registers.
#[inline(never)]
pub fn evt2(bytes: &[u8], d: Evt2Decoder, width: u64, height: u64) -> Counted<Evt2Decoder>
    requires { Bounded2 (length bytes.now / word_size2) d }
    ensures { (result.count ≡ length (inside_all word_size2 reader2 width height d bytes.now))
        × (result.latest ≡ greatest clock (inside_all word_size2 reader2 width height d bytes.now))
        × (result.decoder ≡ after word_size2 reader2 d bytes.now) }
{
    let mut s = d;
    let mut bound = evt2_inside::key_bound(s.initialised, width);
    let mut n: usize = 0;
    let mut top: u64 = 0;
    let mut i: usize = 0;
    let mut w = words::four_at(bytes, 0);
    while i + LAST_BYTE2 < bytes.len() {
        if evt2_inside::is_event_inside(w, bound, height) {
            let t = s.time_high + bits(w, 22, 6);
            s.time = t;
            n += 1;
            top = read_columns::later(top, 1, t);
        } else {
            let step = advance(s, w);
            s = step.next;
            bound = evt2_inside::key_bound(s.initialised, width);
        }
        i += Evt2Decoder::WORD_SIZE;
        w = words::four_at(bytes, i);
    }
    Counted {
        count: n,
        latest: top,
        decoder: s,
    }
}

pub fn evt21(bytes: &[u8], d: Evt21Decoder, width: u64, height: u64) -> Counted<Evt21Decoder>
    requires { Bounded21 (length bytes.now / word_size21) d }
    ensures { (result.count ≡ length (inside_all word_size21 reader21 width height d bytes.now))
        × (result.latest ≡ greatest clock (inside_all word_size21 reader21 width height d bytes.now))
        × (result.decoder ≡ after word_size21 reader21 d bytes.now) }
{
    let bound = read_columns::column_bound(width);
    let mut s = d.evt2();
    let mut n: usize = 0;
    let mut top: u64 = 0;
    let mut i: usize = 0;
    while i + LAST_BYTE21 < bytes.len() {
        let w = words::eight_at(bytes, i);
        let step = evt21_decoder::advance(s, w);
        let v = step.events;
        s = step.next;
        let m = evt21_inside::count_inside(v.x, v.y, v.mask, bound, height);
        n += m;
        top = read_columns::later(top, m, v.t);
        i += Evt21Decoder::WORD_SIZE;
    }
    let decoder = of_evt2(s);
    Counted {
        count: n,
        latest: top,
        decoder,
    }
}

pub fn evt3(bytes: &[u8], d: Decoder, width: u64, height: u64) -> Counted<Decoder>
    requires { Bounded3 (length bytes.now / word_size3) d }
    ensures { (result.count ≡ length (inside_all word_size3 reader3 width height d bytes.now))
        × (result.latest ≡ greatest clock (inside_all word_size3 reader3 width height d bytes.now))
        × (result.decoder ≡ after word_size3 reader3 d bytes.now) }
{
    let spans = evt3_step::span_table();
    let vects = evt3_step::vect_table();
    let counts = evt3_inside::bit_counts();
    let bound = read_columns::column_bound(width);
    let mut s = evt3_step::counting(widen(d));
    let mut n: usize = 0;
    let mut top: u64 = 0;
    let mut i: usize = 0;
    let mut w = words::two_at(bytes, 0);
    while i + LAST_BYTE3 < bytes.len() {
        let g = s.table_step(w, &spans, &vects);
        s = g.next;
        let m = evt3_inside::count_inside(g.x, s.y, g.mask, bound, height, &counts);
        n += m;
        top = read_columns::later(top, m, s.time);
        i += Decoder::WORD_SIZE;
        w = words::two_at(bytes, i);
    }
    let decoder = s.wide().slim();
    Counted {
        count: n,
        latest: top,
        decoder,
    }
}
