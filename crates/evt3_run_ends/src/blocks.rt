// Long runs of events, by blocks of 64: `block_goes_on` is proved to tell whether 64 events each go
// on the run of the one before, and `skip_blocks` to stay in the run. specs/Blocks.antt says how
// that is told from the four columns one by one; evt3_run_rules has what a run is.
ghost use Rattle.std.specs.Prelude.{◌≡◌, Bool, ℕ, ◌+◌, ◌^◌, ◌≤◌, ◌<◌, length};
ghost use Rattle.write_buffer.specs.Lent.{of};
ghost use Rattle.evt3_run_rules.specs.Marks.{joins_next, Along};
ghost use Rattle.write_buffer.specs.Every.{every_from};

use write_buffer::Columns;

// Whether `holds` says yes of 64 events from i on. All are asked, without a branch, so that several are
// compared at once.
fn all_of_64<F: Fn(usize) -> bool>(holds: F, i: usize) -> bool
    requires { (i + 64 ≤ 2 ^ 29) × ((k : ℕ) → k < i + 64 → F.pre holds k) }
    ensures { (f : ℕ → Bool) → ((k : ℕ) (b : Bool) → k < i + 64 → F.post holds k b → b ≡ f k) → result ≡ every_from f 64 i }
{
    let mut all = true;
    for j in 0..64 {
        all &= holds(i + j);
    }
    all
}

// Whether 64 events after i each go on the run of the one before.
fn block_goes_on(events: Columns, i: usize) -> bool
    requires { i + 64 < length events.xs.now }
    ensures { result ≡ every_from (of joins_next events.entry) 64 i }
{
    let Columns { xs, ys, ps, .. } = events;
    let (y, p, t) = (ys[i], ps[i], events.time(i));
    all_of_64(|k| ys[k] == y, i + 1)
        && all_of_64(|k| ps[k] == p, i + 1)
        && all_of_64(|k| xs[k] < xs[k + 1], i)
        && all_of_64(|k| events.time(k) == t, i + 1)
}

// An event of the run of event i, as far on as it goes on by blocks of 64. Only that it is of the run
// is promised: from any such event `run_at` finds the same end.
// `requires`: `run_at`, its caller, has shown it.
pub fn skip_blocks(events: Columns, i: usize) -> usize
    requires { i < length events.xs.now }
    ensures { of Along events.entry i result }
{
    let mut j = i;
    while 64 < events.xs.len() - j && block_goes_on(events, j) {
        j += 64;
    }
    j
}
