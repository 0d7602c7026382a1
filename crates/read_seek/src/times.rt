// What of an EVT3 decoder tells the time, and what a word does to it: a step for the loop that seeks,
// which needs no events, rows or columns.
ghost use Rattle.std.specs.Prelude.{◌≡◌, ◌<◌};
ghost use Rattle.read_seek.specs.Times.{times_of, ticked, Slow, carries_as};

use evt_types::clock;
use evt_types::fields::bits;
use evt3_decoder::Decoder;

#[derive(Clone, Copy)]
pub struct Times {
    pub base: u64,
    pub time: u64,
    pub loops: u64,
}

pub fn of(d: Decoder) -> Times
    ensures { result ≡ times_of d }
{
    Times {
        base: d.time_base,
        time: d.time,
        loops: d.high_loops,
    }
}

// A word to a started decoder. Types other than 8 go without a branch, for which the choice by type 6 goes by methods: the compiler makes
// one branch of an `if` and the test for type 8.
pub fn tick(c: Times, word: u64) -> Times
    requires { Slow c }
    ensures { result ≡ ticked c word }
{
    let kind = bits(word, 12, 4);
    let low = bits(word, 0, 12);
    if kind == 8 {
        let raw = low * Decoder::GRAIN;
        let n = clock::after(Decoder::PERIOD, Decoder::THRESHOLD, c.base, c.loops, raw);
        return Times {
            base: n.coarse,
            time: n.coarse,
            loops: n.loops,
        };
    }
    Times {
        base: c.base,
        time: (kind == 6).then_some(c.base + low).unwrap_or(c.time),
        loops: c.loops,
    }
}

// Whether words of a type can carry events: types 2, 4 and 5, as the bits of a number.
pub fn carries(kind: u64) -> bool
    requires { kind < 16 }
    ensures { result ≡ carries_as kind }
{
    bits(52, kind, 1) == 1
}
