// Passing over words up to a number of events: a loop for each encoding, with the step that it has in `all.rt`.
ghost use Rattle.std.specs.Prelude.{◌/◌, length};
ghost use Rattle.evt_types.specs.Layout.{word_size2, word_size21, word_size3};
ghost use Rattle.evt2_decoder.specs.Evt2.{reader2};
ghost use Rattle.evt21_decoder.specs.Evt21.{reader21};
ghost use Rattle.evt3_decoder.specs.Evt3.{reader3};
ghost use Rattle.evt2_decoder.specs.Range.{Bounded2};
ghost use Rattle.evt21_decoder.specs.Range.{Bounded21};
ghost use Rattle.evt3_decoder.specs.Range.{Bounded3, Paced3};
ghost use Rattle.read_count.specs.Passing.{Reached};

use crate::{
    LAST_BYTE2, LAST_BYTE3, LAST_BYTE21, evt2_inside, evt3_inside, evt3_step, evt21_inside,
};
use evt_types::fields::bits;
use evt_types::words;
use evt2_decoder::{Evt2Decoder, advance};
use evt3_decoder::{Decoder, widen};
use evt21_decoder::{Evt21Decoder, of_evt2};

// What passing over leaves, with an encoding's own decoder.
#[derive(Clone, Copy)]
pub struct Passed<D> {
    pub at: usize,
    pub count: usize,
    pub decoder: D,
}

pub fn evt2(
    bytes: &[u8],
    d: Evt2Decoder,
    width: u64,
    height: u64,
    most: usize,
) -> Passed<Evt2Decoder>
    requires { Bounded2 (length bytes.now / word_size2) d }
    ensures { Reached word_size2 reader2 Bounded2 width height most d bytes.now result.at result.count result.decoder }
{
    let mut s = d;
    let mut bound = evt2_inside::key_bound(s.initialised, width);
    let mut n: usize = 0;
    let mut i: usize = 0;
    let mut w = words::four_at(bytes, 0);
    while i + LAST_BYTE2 < bytes.len() {
        if evt2_inside::is_event_inside(w, bound, height) {
            if most <= n {
                break;
            }
            let t = s.time_high + bits(w, 22, 6);
            s.time = t;
            n += 1;
        } else {
            let step = advance(s, w);
            s = step.next;
            bound = evt2_inside::key_bound(s.initialised, width);
        }
        i += Evt2Decoder::WORD_SIZE;
        w = words::four_at(bytes, i);
    }
    Passed {
        at: i,
        count: n,
        decoder: s,
    }
}

pub fn evt21(
    bytes: &[u8],
    d: Evt21Decoder,
    width: u64,
    height: u64,
    most: usize,
) -> Passed<Evt21Decoder>
    requires { Bounded21 (length bytes.now / word_size21) d }
    ensures { Reached word_size21 reader21 Bounded21 width height most d bytes.now result.at result.count result.decoder }
{
    let bound = read_columns::column_bound(width);
    let mut s = d.evt2();
    let mut n: usize = 0;
    let mut i: usize = 0;
    while i + LAST_BYTE21 < bytes.len() {
        let w = words::eight_at(bytes, i);
        let step = evt21_decoder::advance(s, w);
        let v = step.events;
        let next = step.next;
        let m = evt21_inside::count_inside(v.x, v.y, v.mask, bound, height);
        if most - n < m {
            break;
        }
        n += m;
        s = next;
        i += Evt21Decoder::WORD_SIZE;
    }
    let decoder = of_evt2(s);
    Passed {
        at: i,
        count: n,
        decoder,
    }
}

pub fn evt3(bytes: &[u8], d: Decoder, width: u64, height: u64, most: usize) -> Passed<Decoder>
    requires { Paced3 (length bytes.now / word_size3) d }
    ensures { Reached word_size3 reader3 Bounded3 width height most d bytes.now result.at result.count result.decoder }
{
    let spans = evt3_step::span_table();
    let vects = evt3_step::vect_table();
    let counts = evt3_inside::bit_counts();
    let bound = read_columns::column_bound(width);
    let mut s = evt3_step::counting(widen(d));
    let mut n: usize = 0;
    let mut i: usize = 0;
    let mut w = words::two_at(bytes, 0);
    while i + LAST_BYTE3 < bytes.len() {
        let g = s.table_step(w, &spans, &vects);
        let next = g.next;
        let m = evt3_inside::count_inside(g.x, next.y, g.mask, bound, height, &counts);
        if most - n < m {
            break;
        }
        n += m;
        s = next;
        i += Decoder::WORD_SIZE;
        w = words::two_at(bytes, i);
    }
    let decoder = s.wide().slim();
    Passed {
        at: i,
        count: n,
        decoder,
    }
}
