// The passes over the words of any encoding, for `survey` and `fill` alone, which say what is required and why. They are generic, so that
// the compiler knows which kind of decoder it has.
ghost use Rattle.std.specs.Prelude.{◌≡◌, length};
ghost use Rattle.evt_codec.specs.Reader.{viewed};
ghost use Rattle.evt_types.specs.Columns.{Wrote};
ghost use Rattle.read_select.specs.Pass.{ReadyAt, Fits, handed_from, surveyed_from, filled_from};

use crate::word::{Notes, Trims};
use crate::{Filled, SurveyTotals, word};
use read_window::{Window, trim};

// Counts the events that the window leaves of each word.
pub fn survey<D: Trims>(bytes: &[u8], start: D, win: Window, number: u64) -> SurveyTotals
    requires { ReadyAt D.reader (D.state start) number (length bytes.now) }
    ensures { result ≡ surveyed_from win number (viewed D.reader (D.state start)) bytes.now }
{
    let size = D::WORD_SIZE;
    let mut s = start;
    let mut t = Notes {
        number,
        count: 0,
        latest: 0,
        width: 0,
        height: 0,
    };
    let mut i: usize = 0;
    // The loops here test for a word's last byte, as `word_at` tests, whose own test then falls away: by the size of a word they measured slower.
    while i + (size - 1) < bytes.len() {
        let w = D::word_at(bytes, i);
        let (next, v) = s.advance(w);
        s = next;
        i += size;
        let r = D::cut(v, win, t.number);
        t = word::note(t, v, r);
        if trim::stopped(win, t.number, s.started(), s.time()) {
            break;
        }
    }
    SurveyTotals {
        number: t.number,
        count: t.count,
        latest: t.latest,
        width: t.width,
        height: t.height,
        consumed: i / size,
        codec: s.codec(),
    }
}

// Writes them. (Tried: never inlined; EVT3 takes a third more instructions.)
pub fn fill<D: Trims>(
    bytes: &[u8],
    start: D,
    win: Window,
    number: u64,
    xs: &mut [u16],
    ys: &mut [u16],
    ts: &mut [i64],
    ps: &mut [u8],
) -> Filled
    requires ready { ReadyAt D.reader (D.state start) number (length bytes.now) }
    requires fit { Fits (length (handed_from win number (viewed D.reader (D.state start)) bytes.now))
        (length xs.old) (length ys.old) (length ts.old) (length ps.old) }
    ensures filled { result ≡ filled_from win number (viewed D.reader (D.state start)) bytes.now }
    ensures wrote { Wrote (handed_from win number (viewed D.reader (D.state start)) bytes.now) 0
        xs.old ys.old ts.old ps.old
        xs.new ys.new ts.new ps.new }
{
    let size = D::WORD_SIZE;
    let mut s = start;
    let mut k = number;
    let mut n: usize = 0;
    let mut i: usize = 0;
    while i + (size - 1) < bytes.len() {
        let w = D::word_at(bytes, i);
        let (next, v) = s.advance(w);
        s = next;
        i += size;
        let r = D::cut(v, win, k);
        let kept = word::masked(v, r.mask);
        let was = n;
        n = read_columns::put_all(kept, was, &mut *xs, &mut *ys, &mut *ts, &mut *ps);
        k = word::after(k, was, n, r.extra);
        if trim::stopped(win, k, s.started(), s.time()) {
            break;
        }
    }
    Filled {
        number: k,
        count: n,
        consumed: i / size,
        codec: s.codec(),
    }
}
