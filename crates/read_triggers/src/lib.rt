// Reading a whole recording, or headerless words, with the triggers beside the events: four lent
// columns for events and three for triggers. Both entries are total. What they answer and hand over, by
// the table of docs/RULES.md, is in specs/Read.antt of `trigger_rules`, whose functions settle all that
// needs no column: 5 and 13 are decided before a column is touched.

#![tactic(auto)]

ghost use Rattle.std.specs.Prelude.{◌≤◌, ◌^◌, length};
ghost use Rattle.read_rules.specs.Read.{body_events};
ghost use Rattle.trigger_rules.specs.{Read.body_triggers, Read.DecodesWordsTriggers, Read.ReadsRawTriggers, Laws.ReadsBodyTriggers};

use evt_codec::Codec;
use evt_types::{Encoding, Refusal, SensorSize};
use read_rules::LoadOptions;
pub use trigger_rules::TriggerReading;

// A body of at most 2^30 bytes: 1 for no event, 5, 13, or the reading. `requires`: both entries have
// refused longer ones (4).
fn read_body_triggers(
    body: &[u8],
    encoding: Encoding,
    size: Option<SensorSize>,
    limit: Option<usize>,
    xs: &mut [u16],
    ys: &mut [u16],
    ts: &mut [i64],
    ps: &mut [u8],
    times: &mut [i64],
    ids: &mut [u8],
    values: &mut [u8],
) -> Result<TriggerReading, Refusal>
    requires { length body.now ≤ 2 ^ 30 }
    ensures { ReadsBodyTriggers encoding size (body_events encoding size limit body.now)
        (body_triggers encoding size limit body.now) result
        xs.old ys.old ts.old ps.old
        times.old ids.old values.old
        xs.new ys.new ts.new ps.new
        times.new ids.new values.new }
{
    let codec = Codec::new(encoding);
    let end = trigger_rules::trigger_end(body, encoding, size, limit);
    let part = &body[..end];
    let places = trigger_rules::shortest3(times.len(), ids.len(), values.len());
    let n = trigger_count::count(part, codec);
    if places < n {
        let room = read_capacity::shortest(xs.len(), ys.len(), ts.len(), ps.len());
        return Err(trigger_rules::refused_short(body, encoding, size, limit, room, n));
    }
    let reading = read::read_body(
        body, encoding, size, limit, &mut *xs, &mut *ys, &mut *ts, &mut *ps,
    )?;
    if 0 < n {
        trigger_fill::fill(part, codec, &mut *times, &mut *ids, &mut *values);
    }
    Ok(TriggerReading {
        reading,
        triggers: n,
    })
}

// `decode_words`, with triggers: 4, 1 for a zero size, 1 for no event, 5, 13.
pub fn decode_words_triggers(
    words: &[u8],
    encoding: Encoding,
    size: Option<SensorSize>,
    limit: Option<usize>,
    xs: &mut [u16],
    ys: &mut [u16],
    ts: &mut [i64],
    ps: &mut [u8],
    times: &mut [i64],
    ids: &mut [u8],
    values: &mut [u8],
) -> Result<TriggerReading, Refusal>
    ensures { DecodesWordsTriggers words.now encoding size limit result
        xs.old ys.old ts.old ps.old
        times.old ids.old values.old
        xs.new ys.new ts.new ps.new
        times.new ids.new values.new }
{
    read_rules::judge(words.len(), size)?;
    read_body_triggers(
        words,
        encoding,
        size,
        limit,
        &mut *xs,
        &mut *ys,
        &mut *ts,
        &mut *ps,
        &mut *times,
        &mut *ids,
        &mut *values,
    )
}

// `read_raw`, with triggers: 4, 3, 2, 1 for a zero size, 1 for no event, 5, 13.
pub fn read_raw_triggers(
    recording: &[u8],
    options: LoadOptions,
    xs: &mut [u16],
    ys: &mut [u16],
    ts: &mut [i64],
    ps: &mut [u8],
    times: &mut [i64],
    ids: &mut [u8],
    values: &mut [u8],
) -> Result<TriggerReading, Refusal>
    ensures { ReadsRawTriggers recording.now options result
        xs.old ys.old ts.old ps.old
        times.old ids.old values.old
        xs.new ys.new ts.new ps.new
        times.new ids.new values.new }
{
    let header = header::parse_header(recording, options.sensor_size)?;
    read_body_triggers(
        &recording[header.data_offset..],
        header.encoding,
        header.sensor_size,
        options.max_events,
        &mut *xs,
        &mut *ys,
        &mut *ts,
        &mut *ps,
        &mut *times,
        &mut *ids,
        &mut *values,
    )
}
