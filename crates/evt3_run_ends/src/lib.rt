// Runs of events: where one ends, found for up to 63 events at once. `run_at` is proved to find
// the ends of the longest runs, from the left. evt3_run_rules has what a run is and how the ends stand
// as the bits of a number, `flags` finds these for 63 events at once, and `blocks` goes through long
// runs.

#![tactic(auto)]

ghost use Rattle.std.specs.Prelude.{◌≡◌, ◌+◌, ◌<◌, length};
ghost use Rattle.write_buffer.specs.Lent.{of};
ghost use Rattle.evt3_run_rules.specs.Marks.{stop_at, marks_from, Marked, Finds};

use blocks::skip_blocks;
use evt3_run_rules::{Found, goes_on};
use flags::marks_at_once;
use write_buffer::Columns;

mod blocks;
mod flags;

// Whether the event after k doesn't go on its run: 1, or 0.
fn stops(events: Columns, k: usize) -> u64
    requires { k + 1 < length events.xs.now }
    ensures { result ≡ of stop_at events.entry k }
{
    let j = k + 1;
    let Columns { xs, ys, ps, .. } = events;
    let (t, t2) = (events.time(k), events.time(j));
    u64::from(!goes_on(t, ys[k], ps[k], xs[k], xs[j], ys[j], t2, ps[j]))
}

// The marks of up to 63 events, one by one.
fn marks_one_by_one(events: Columns, i: usize) -> u64
    requires { i < length events.xs.now }
    ensures { result ≡ of marks_from events.entry i }
{
    let last = events.xs.len() - 1;
    let (end, mut mask): (usize, u64) = if 63 <= last - i {
        (i + 63, 0)
    } else {
        (last, 1)
    };
    for j in (i..end).rev() {
        mask = 2 * mask + stops(events, j);
    }
    mask
}

// Where the runs from i on end, a bit for each event, as far as 63 events go: the bits are found
// without a branch for each, and the ends are then read off them.
fn marks(events: Columns, i: usize) -> u64
    requires { i < length events.xs.now }
    ensures { result ≡ of marks_from events.entry i }
{
    if 64 < events.xs.len() - i {
        marks_at_once(events, i)
    } else {
        marks_one_by_one(events, i)
    }
}

// The end of the run at i, and the marks from there on. Where no mark is found the run is long,
// and goes on by blocks.
pub fn run_at(mask: u64, events: Columns, i: usize) -> Found
    requires { (i < length events.xs.now) × of Marked events i mask }
    ensures { of Finds events.entry i result }
{
    let mut j = i;
    let mut m = mask;
    while m == 0 {
        m = marks(events, j);
        if m == 0 {
            j = skip_blocks(events, j + 63);
        }
    }
    let z = u64::trailing_zeros(m);
    Found {
        end: j + 1 + z as usize,
        mask: (m >> z) >> 1,
    }
}
