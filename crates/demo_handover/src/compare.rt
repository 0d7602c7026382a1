// Comparing what was read with the given events.
ghost use Rattle.std.specs.Prelude.{◌≤◌};
ghost use Rattle.demo_handover.specs.Compare.{Judges};

use crate::given;
use crate::given::When;
use evt_types::Refusal;
use std::fmt;

// What a call handed over: how many events, or its refusal, and the columns.
#[derive(Clone, Copy)]
pub struct Got {
    pub count: Result<usize, Refusal>,
    pub xs: [u16; 16],
    pub ys: [u16; 16],
    pub ts: [i64; 16],
    pub ps: [u8; 16],
}

#[derive(Clone, Copy, Debug, PartialEq, Eq)]
pub enum Difference {
    Refusal(Refusal),
    Count(usize),
    Column(char),
}

impl fmt::Display for Difference {
    fn fmt<W: fmt::Write>(&self, f: &mut fmt::Formatter<W>) -> fmt::Result {
        match *self {
            Difference::Refusal(why) => write!(f, "refused {}", u32::from(why)),
            Difference::Count(n) => write!(f, "count {n}"),
            Difference::Column(name) => write!(f, "column {name}"),
        }
    }
}

// How what was got differs from the given events from number `from` on, up to `to`.
pub fn judge(when: When, got: Got, from: usize, to: usize) -> Result<(), Difference>
    requires { (from ≤ to) × (to ≤ 16) }
    ensures { Judges when got from to result }
{
    let n = got.count.map_err(Difference::Refusal)?;
    if n != to - from {
        return Err(Difference::Count(n));
    }
    if got.xs[..n] != given::columns()[from..to] {
        return Err(Difference::Column('x'));
    }
    if got.ys[..n] != given::rows()[from..to] {
        return Err(Difference::Column('y'));
    }
    if got.ts[..n] != given::times(when)[from..to] {
        return Err(Difference::Column('t'));
    }
    if got.ps[..n] != given::polarities()[from..to] {
        return Err(Difference::Column('p'));
    }
    Ok(())
}
