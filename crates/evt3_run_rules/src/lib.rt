// What every pass over runs of events rests on: what a run is, and whether an event goes on one.
// `goes_on` is proved to tell that. specs/Runs.antt says what a run is and which runs events have,
// specs/Marks.antt how their ends stand as the bits of a number.

#![tactic(auto)]

ghost use Rattle.std.specs.Prelude.{◌≡◌};
ghost use Rattle.write_buffer.specs.Columns.{event};
ghost use Rattle.evt3_run_rules.specs.Runs.{goes};

// The end of a run, and what is known of the ends after it.
#[derive(Clone, Copy)]
pub struct Found {
    pub end: usize,
    pub mask: u64,
}

// Whether an event goes on a run: all is compared, without a branch for each.
pub fn goes_on(t: u64, y: u16, p: u8, last: u16, x: u16, y2: u16, t2: u64, p2: u8) -> bool
    ensures { result ≡ goes t y p last (event x y2 t2 p2) }
{
    (t2 == t) & (y2 == y) & (p2 == p) & (last < x)
}
