// Where runs end among 63 events, as the bits of a number, where 64 follow: `marks_at_once` is
// proved to find them from a flag for each event, several at once. specs/Flags.antt says what the
// flags are and how the bits are gathered from them; evt3_run_rules has what a run is and its marks.
ghost use Rattle.std.specs.Prelude.{◌≡◌, ◌+◌, ◌^◌, ◌≤◌, ◌<◌, eqb, length};
ghost use Rattle.std.specs.Int.Bits.{bit_or};
ghost use Rattle.write_buffer.specs.Lent.{of};
ghost use Rattle.evt3_run_rules.specs.Marks.{marks_from};
ghost use Rattle.evt3_run_ends.specs.Flags.{ends, place_goes, place_ends, time_ends, flag_at, Filled, Flags, bits};

use write_buffer::Columns;

// 1 where column, row or polarity say that an event doesn't go on the run of the one before it,
// else 0.
fn place_ends(last: u16, y: u16, p: u8, x: u16, y2: u16, p2: u8) -> u8
    ensures { result ≡ ends (place_goes last y p x y2 p2) }
{
    let goes = (y2 == y) & (p2 == p) & (last < x);
    u8::from(!goes)
}

// The same of the time.
fn time_ends(t: u64, t2: u64) -> u8
    ensures { result ≡ ends (eqb t2 t) }
{
    u8::from(t2 != t)
}

// A flag for each of 64 events, from column, row and polarity: 1 where the next one doesn't go on
// its run. This loop and the next have no branch, and so compare several events at once.
fn flag_places(events: Columns, i: usize, flags: &mut [u8; 64])
    requires { (i + 64 < length events.xs.now) × (length flags.old ≡ 64) }
    ensures { Filled (λ j. place_ends events.entry.xs.now events.entry.ys.now events.entry.ps.now (i + j)) flags.new }
{
    let Columns { xs, ys, ps, .. } = events;
    for (j, flag) in flags.iter_mut().enumerate() {
        let k = i + j;
        let n = k + 1;
        *flag = place_ends(xs[k], ys[k], ps[k], xs[n], ys[n], ps[n]);
    }
}

// The flags with those that the times set.
fn flag_times(events: Columns, i: usize, flags: &mut [u8; 64])
    requires { (i + 64 < length events.xs.now) × (length flags.old ≡ 64) }
    ensures { Filled (λ j. bit_or (flag_at flags.old j) (time_ends events.entry.ts.now (i + j))) flags.new }
{
    for (j, flag) in flags.iter_mut().enumerate() {
        let k = i + j;
        *flag |= time_ends(events.time(k), events.time(k + 1));
    }
}

// The first 63 flags as the bits of a number.
fn gather(flags: &[u8; 64]) -> u64
    requires { Flags flags.now }
    ensures { result ≡ bits (flag_at flags.now) 63 0 }
{
    let mut mask: u64 = 0;
    for j in (0..63).rev() {
        mask = 2 * mask + flags[j] as u64;
    }
    mask
}

// The marks of 63 events, where 64 follow, of several at once.
// `requires`: `marks`, its caller, has shown it.
pub fn marks_at_once(events: Columns, i: usize) -> u64
    requires { i + 64 < length events.xs.now }
    ensures { result ≡ of marks_from events.entry i }
{
    let mut flags = [0u8; 64];
    flag_places(events, i, &mut flags);
    flag_times(events, i, &mut flags);
    gather(&flags)
}
