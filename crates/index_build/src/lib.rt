// The index of a recording: checkpoints at every `spacing` bytes of its body, made one by one. Proved:
// the records and the answer are those of specs/Index.antt, which has what an index holds and what
// opening answers, by the table of docs/RULES.md; specs/Build.antt has the making, one iteration after another.
// Records are handed over by value. Crate `index_open` has the entries that make an index; crate `index_records`
// judges records and finds the one that a slice starts at.

#![tactic(auto)]

ghost use Rattle.std.specs.Prelude.{◌≡◌, true, ◌≤◌, length};
ghost use Rattle.evt_types.specs.Num.{most_bytes};
ghost use Rattle.index_build.specs.Nth.{blank};
ghost use Rattle.index_build.specs.Index.{alignment, spacing_ok, record_count, body_at, index_outcome, open_raw_outcome, open_words_outcome};
ghost use Rattle.index_build.specs.Build.{Fit, Advanced, first_for, prepared_by, whole_window, concluded};

use evt_codec::Codec;
use evt_types::{Encoding, MOST_BYTES, Refusal, SensorSize};
use read_select::Window;

// What is kept after the first `byte_offset` bytes: the events counted before, their maximum time
// (0 if none), and the decoder.
#[derive(Clone, Copy)]
pub struct Checkpoint {
    pub byte_offset: usize,
    pub event_index: usize,
    pub time: i64,
    pub codec: Codec,
}

impl Checkpoint {
    // Before any byte.
    pub fn blank() -> Checkpoint
        ensures { result ≡ blank }
    {
        Checkpoint {
            byte_offset: 0,
            event_index: 0,
            time: 0,
            codec: Codec::new(Encoding::Evt2),
        }
    }
}

// An index without its records, which the caller keeps.
#[derive(Clone, Copy)]
pub struct RawSliceSource {
    pub encoding: Encoding,
    pub spacing: usize,
    pub data_offset: usize,
    pub len: usize,
    pub width: usize,
    pub height: usize,
    pub n_events: usize,
}

// The source, and how many records were made.
#[derive(Clone, Copy)]
pub struct Opening {
    pub source: RawSliceSource,
    pub records: usize,
}

#[derive(Clone, Copy)]
pub struct OpenOptions {
    pub sensor_size: Option<SensorSize>,
    pub spacing: usize,
}

// The same for headerless words, whose encoding the caller names.
#[derive(Clone, Copy)]
pub struct WordsOptions {
    pub encoding: Encoding,
    pub sensor_size: Option<SensorSize>,
    pub spacing: usize,
}

// The building of an index of `cap` records: the next one stands at byte `offset`. The events of `source`
// are still to be counted, those inside `width` x `height`.
#[derive(Clone, Copy)]
pub struct Builder {
    pub cap: usize,
    pub offset: usize,
    pub width: u64,
    pub height: u64,
    pub count: usize,
    pub latest: u64,
    pub codec: Codec,
    pub source: RawSliceSource,
}

impl Builder {
    // The record that stands where the builder is; the builder then stands behind the record's bytes.
    #[tactic(auto, using(crate::specs::Laws::part_bounded, crate::specs::Laws::count_sum))]
    pub fn advance(&mut self, recording: &[u8]) -> Checkpoint
        requires { Fit recording.now self.old }
        ensures { Advanced recording.now self.old result self.new }
    {
        let codec = self.codec;
        let record = Checkpoint {
            byte_offset: self.offset,
            event_index: self.count,
            time: self.latest as i64,
            codec,
        };
        let start = self.offset;
        let next_offset = start + self.source.spacing;
        let end = next_offset.min(recording.len());
        let s = read_count::count_all(&recording[start..end], codec, self.width, self.height);
        self.offset = next_offset;
        self.count += s.count;
        self.latest = self.latest.max(s.latest);
        self.codec = s.codec;
        record
    }
}

// What a spacing is a multiple of (rule 8), for each encoding.
const EVT2_ALIGNMENT: usize = 4;

const EVT21_ALIGNMENT: usize = 8;

const EVT3_ALIGNMENT: usize = 4;

fn alignment(encoding: Encoding) -> usize
    ensures { result ≡ alignment encoding }
{
    match encoding {
        Encoding::Evt2 => EVT2_ALIGNMENT,
        Encoding::Evt21 => EVT21_ALIGNMENT,
        Encoding::Evt3 => EVT3_ALIGNMENT,
    }
}

// A spacing that rule 8 allows.
#[tactic(auto, unfolding(crate::specs::Index::spacing_ok))]
pub fn spacing_ok(encoding: Encoding, spacing: usize) -> bool
    ensures { result ≡ spacing_ok encoding spacing }
{
    4 <= spacing && spacing <= 4194304 && spacing % alignment(encoding) == 0
}

// One record for every `spacing` bytes begun, and one for no bytes.
fn record_count(n: usize, spacing: usize) -> usize
    requires { (n ≤ most_bytes) × ((4 ≤ spacing) × (spacing ≤ 4194304)) }
    ensures { result ≡ record_count n spacing }
{
    n.div_ceil(spacing).max(1)
}

// A source whose events are still to be counted.
fn uncounted(
    encoding: Encoding,
    spacing: usize,
    data_offset: usize,
    len: usize,
    width: usize,
    height: usize,
) -> RawSliceSource
    ensures { result ≡ record {
      encoding = encoding;
      spacing = spacing;
      data_offset = data_offset;
      len = len;
      width = width;
      height = height;
      n_events = 0;
    } }
{
    RawSliceSource {
        encoding,
        spacing,
        data_offset,
        len,
        width,
        height,
        n_events: 0,
    }
}

// Before any record is made.
fn first_builder(source: RawSliceSource, cap: usize, width: u64, height: u64) -> Builder
    ensures { result ≡ first_for source cap width height }
{
    let encoding = source.encoding;
    Builder {
        cap,
        offset: source.data_offset,
        width,
        height,
        count: 0,
        latest: 0,
        codec: Codec::new(encoding),
        source,
    }
}

// All events, whatever their number, time and place.
fn whole_window() -> Window
    ensures { result ≡ whole_window }
{
    Window {
        width: 65536,
        height: 65536,
        n0: 0,
        n1: u64::MAX,
        t0: 0,
        t1: u64::MAX,
    }
}

// A body from `start` on, its spacing allowed: 9, 1 for no event, or its builder.
#[tactic(auto, using(crate::specs::Open::spaced), unfolding(crate::specs::Index::index_outcome))]
fn spaced_builder(
    recording: &[u8],
    start: usize,
    encoding: Encoding,
    size: Option<SensorSize>,
    spacing: usize,
    room: usize,
) -> Result<Builder, Refusal>
    requires { (length recording.now ≤ most_bytes) × ((start ≤ length recording.now) × (spacing_ok encoding spacing ≡ true)) }
    ensures { result ≡ prepared_by (index_outcome (body_at recording.now start encoding size spacing) room) }
{
    let len = recording.len();
    let need = record_count(len - start, spacing);
    if room < need {
        return Err(Refusal::TooFewRecords(need));
    }
    match size {
        Some(SensorSize { width, height }) => {
            let source = uncounted(encoding, spacing, start, len, width, height);
            Ok(first_builder(source, need, width as u64, height as u64))
        }
        None => {
            let codec = Codec::new(encoding);
            let tally = read_select::survey(&recording[start..], codec, whole_window(), 0);
            if tally.count == 0 {
                return Err(Refusal::InvalidSensorSize);
            }
            let width = tally.width as usize;
            let height = tally.height as usize;
            let source = uncounted(encoding, spacing, start, len, width, height);
            Ok(first_builder(source, need, 65536, 65536))
        }
    }
}

// 8, and so on.
#[tactic(auto, unfolding(crate::specs::Index::index_outcome))]
fn body_builder(
    recording: &[u8],
    start: usize,
    encoding: Encoding,
    size: Option<SensorSize>,
    spacing: usize,
    room: usize,
) -> Result<Builder, Refusal>
    requires { (length recording.now ≤ most_bytes) × (start ≤ length recording.now) }
    ensures { result ≡ prepared_by (index_outcome (body_at recording.now start encoding size spacing) room) }
{
    if !spacing_ok(encoding, spacing) {
        return Err(Refusal::InvalidSpacing);
    }
    spaced_builder(recording, start, encoding, size, spacing, room)
}

// A recording: its header, then its body.
#[tactic(auto, using(crate::specs::Open::header_fits), unfolding(crate::specs::Index::open_raw_outcome))]
pub fn prepare(recording: &[u8], options: OpenOptions, room: usize) -> Result<Builder, Refusal>
    ensures { result ≡ prepared_by (open_raw_outcome recording.now options room) }
{
    let header = header::parse_header(recording, options.sensor_size)?;
    body_builder(
        recording,
        header.data_offset,
        header.encoding,
        header.sensor_size,
        options.spacing,
        room,
    )
}

// Headerless words.
#[tactic(auto, unfolding(crate::specs::Index::open_words_outcome))]
pub fn prepare_words(words: &[u8], options: WordsOptions, room: usize) -> Result<Builder, Refusal>
    ensures { result ≡ prepared_by (open_words_outcome words.now options room) }
{
    if MOST_BYTES < words.len() {
        return Err(Refusal::TooLong);
    }
    if header::has_zero(options.sensor_size) {
        return Err(Refusal::InvalidSensorSize);
    }
    body_builder(
        words,
        0,
        options.encoding,
        options.sensor_size,
        options.spacing,
        room,
    )
}

// What is opened, where all records are made.
pub fn conclude(builder: Builder) -> Result<Opening, Refusal>
    ensures { result ≡ Ok (concluded builder) }
{
    let source = RawSliceSource {
        n_events: builder.count,
        ..builder.source
    };
    Ok(Opening {
        source,
        records: builder.cap,
    })
}
