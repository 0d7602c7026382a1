// Reading a whole recording, or headerless words, into four lent columns. Both entries are total.
// What they answer and hand over, by the table of docs/RULES.md, is in specs/Read.antt of `read_rules`, whose
// functions settle all that needs no column.

#![tactic(auto)]

ghost use Rattle.std.specs.Prelude.{◌≤◌, ◌^◌, length};
ghost use Rattle.read_rules.specs.Read.{body_events, ReadsBody, DecodesWords, ReadsRaw};

use evt_codec::Codec;
use evt_types::{Encoding, Refusal, SensorSize};
pub use read_rules::{LoadOptions, Reading};

// A body of at most 2^30 bytes: 1 for no event, 5, or the reading. `requires`: both entries have
// refused longer ones (4).
pub fn read_body(
    body: &[u8],
    encoding: Encoding,
    size: Option<SensorSize>,
    limit: Option<usize>,
    xs: &mut [u16],
    ys: &mut [u16],
    ts: &mut [i64],
    ps: &mut [u8],
) -> Result<Reading, Refusal>
    requires { length body.now ≤ 2 ^ 30 }
    ensures { ReadsBody encoding size (body_events encoding size limit body.now) result
        xs.old ys.old ts.old ps.old
        xs.new ys.new ts.new ps.new }
{
    let codec = Codec::new(encoding);
    let window = read_rules::window_of(size, limit);
    let d = read_deliver::deliver(
        body, codec, window, 0, &mut *xs, &mut *ys, &mut *ts, &mut *ps,
    );
    read_rules::settle(encoding, size, d, xs, ys)
}

// Headerless words: only the caller's encoding and size are used, and a first byte `%` is no header.
pub fn decode_words(
    words: &[u8],
    encoding: Encoding,
    size: Option<SensorSize>,
    limit: Option<usize>,
    xs: &mut [u16],
    ys: &mut [u16],
    ts: &mut [i64],
    ps: &mut [u8],
) -> Result<Reading, Refusal>
    ensures { DecodesWords words.now encoding size limit result
        xs.old ys.old ts.old ps.old
        xs.new ys.new ts.new ps.new }
{
    read_rules::judge(words.len(), size)?;
    read_body(
        words, encoding, size, limit, &mut *xs, &mut *ys, &mut *ts, &mut *ps,
    )
}

// A recording: its header, then its body.
pub fn read_raw(
    recording: &[u8],
    options: LoadOptions,
    xs: &mut [u16],
    ys: &mut [u16],
    ts: &mut [i64],
    ps: &mut [u8],
) -> Result<Reading, Refusal>
    ensures { ReadsRaw recording.now options result xs.old ys.old ts.old ps.old
        xs.new ys.new ts.new ps.new }
{
    let header = header::parse_header(recording, options.sensor_size)?;
    let body = &recording[header.data_offset..];
    read_body(
        body,
        header.encoding,
        header.sensor_size,
        options.max_events,
        &mut *xs,
        &mut *ys,
        &mut *ts,
        &mut *ps,
    )
}
