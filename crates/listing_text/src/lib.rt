// The text that the listing program prints, in pieces that are stored into a lent buffer: the first
// line, and the lines of the rows of four columns. listing_lines/specs/Listing.antt has what it is,
// specs/Laws.antt how the pieces make it. A piece is stored as far as the buffer reaches.

#![tactic(auto)]

ghost use Rattle.std.specs.Prelude.{◌≡◌, ◌*◌};
ghost use Rattle.listing_lines.specs.Listing.{event_lines};
ghost use Rattle.write_text.specs.Stored.{Stored};
ghost use Rattle.listing_text.specs.Laws.{Rows, rows_from, count_of, Wide, Begins};

use evt_types::num::natural_time;
use evt_types::{Refusal, SensorSize};
use listing_lines::{event_at, head_text};
use read::LoadOptions;
use read_rules::Reading;
use write_text::put_text;

// How many bytes the first line has, and how many events are to be listed after it.
#[derive(Clone, Copy)]
pub struct Begun {
    pub written: usize,
    pub count: usize,
}

// The lines of n rows of the columns from row `from` on.
pub fn lines_text(
    xs: &[u16],
    ys: &[u16],
    ts: &[i64],
    ps: &[u8],
    from: usize,
    n: usize,
    out: &mut [u8],
) -> usize
    requires { Rows xs.now ys.now ts.now ps.now from n }
    ensures { Stored (84 * n) out.old 0 (event_lines (rows_from
        xs.now ys.now ts.now ps.now from n)) result out.new }
{
    let mut at = 0;
    for i in from..from + n {
        let t = natural_time(ts[i]);
        at = event_at(t, xs[i], ys[i], ps[i], &mut *out, at);
    }
    at
}

fn count_of(answer: Result<Reading, Refusal>) -> usize
    ensures { result ≡ count_of answer }
{
    answer.map_or(0, |r| r.count)
}

// Reads the recording into columns of 393,216 places each, which always suffice, and makes the
// first line of its listing. The other lines are those of the rows 0 to count.
pub fn begin(
    recording: &[u8],
    xs: &mut [u16],
    ys: &mut [u16],
    ts: &mut [i64],
    ps: &mut [u8],
    out: &mut [u8],
) -> Begun
    requires { Wide xs.old ys.old ts.old ps.old }
    ensures { Begins recording.now result out.old out.new
        xs.new ys.new ts.new ps.new }
{
    if 65536 < recording.len() {
        let written = put_text(&mut *out, 0, b"too long\n");
        return Begun { written, count: 0 };
    }
    let options = LoadOptions {
        sensor_size: None,
        max_events: None,
    };
    let answer = read::read_raw(recording, options, &mut *xs, &mut *ys, &mut *ts, &mut *ps);
    let written = head_text(answer, &mut *out);
    Begun {
        written,
        count: count_of(answer),
    }
}
