// Opening in numbers: options and answers, and records made into lent ones.
ghost use Rattle.std.specs.Prelude.{◌≡◌, length};
ghost use Rattle.index_build.specs.Build.{Begun, prepared_by};
ghost use Rattle.index_build.specs.Index.{told_open};
ghost use Rattle.c_index.specs.{Making.Begins, Making.Makes, Making.Answers, Opening.open_options_of, Opening.open_words_outcome_c};
ghost use Rattle.c_index.specs.{Opening.opened_of};

use crate::records::PropheseeRecord;
use c_values::encoding::coded;
use c_values::options::size_of;
use c_values::refusal::count_of;
use evt_types::Refusal;
use index_build::{Builder, OpenOptions, Opening, WordsOptions};

// `sized` 0: the size is unknown; else it is `width` by `height`.
#[repr(C)]
#[derive(Clone, Copy)]
pub struct PropheseeOpenOptions {
    pub width: usize,
    pub height: usize,
    pub spacing: usize,
    pub sized: u8,
}

// An index but for its records, with how many they are.
#[repr(C)]
#[derive(Clone, Copy, Default)]
pub struct PropheseeSource {
    pub records: usize,
    pub spacing: usize,
    pub data_offset: usize,
    pub len: usize,
    pub width: usize,
    pub height: usize,
    pub n_events: usize,
    pub encoding: u32,
}

// `refusal` 0: opened, and `source` tells what. Else the table's number, `told` being the count that
// a 9 tells.
#[repr(C)]
#[derive(Clone, Copy, Default)]
pub struct PropheseeOpening {
    pub source: PropheseeSource,
    pub told: usize,
    pub refusal: u32,
}

impl From<PropheseeOpenOptions> for OpenOptions {
    ghost from_gives = { λ o l. l ≡ open_options_of o };

    fn from(o: PropheseeOpenOptions) -> OpenOptions {
        OpenOptions {
            sensor_size: size_of(o.sized, o.width, o.height),
            spacing: o.spacing,
        }
    }
}

impl From<Result<Opening, Refusal>> for PropheseeOpening {
    ghost from_gives = { λ a o. o ≡ opened_of (told_open a) };

    fn from(answer: Result<Opening, Refusal>) -> PropheseeOpening {
        match answer {
            Ok(o) => {
                let s = o.source;
                PropheseeOpening {
                    source: PropheseeSource {
                        records: o.records,
                        spacing: s.spacing,
                        data_offset: s.data_offset,
                        len: s.len,
                        width: s.width,
                        height: s.height,
                        n_events: s.n_events,
                        encoding: u32::from(s.encoding),
                    },
                    told: 0,
                    refusal: 0,
                }
            }
            Err(r) => PropheseeOpening {
                told: count_of(r),
                refusal: u32::from(r),
                ..PropheseeOpening::default()
            },
        }
    }
}

// Prepares the index of words whose encoding is a number.
pub fn prepare_coded(
    words: &[u8],
    encoding: u32,
    options: PropheseeOpenOptions,
    room: usize,
) -> Result<Builder, Refusal>
    ensures { result ≡ prepared_by (open_words_outcome_c words.now encoding options room) }
{
    let encoding = coded(encoding, words.len())?;
    let o = WordsOptions {
        encoding,
        sensor_size: size_of(options.sized, options.width, options.height),
        spacing: options.spacing,
    };
    index_build::prepare_words(words, o, room)
}

// Makes the records of a builder that was prepared for that many. `requires`: such a builder.
fn make_records(recording: &[u8], records: &mut [[u64; 10]], first: Builder) -> Builder
    requires { Begun recording.now (length records.old) first }
    ensures { Makes recording.now first records.old result records.new }
{
    let mut builder = first;
    for entries in records[..first.cap].iter_mut() {
        let record = PropheseeRecord::from(builder.advance(recording));
        *entries = <[u64; 10]>::from(record);
    }
    builder
}

// Makes the index that was prepared. `requires`: prepared for that many records.
pub fn open_records(
    recording: &[u8],
    records: &mut [[u64; 10]],
    prepared: Result<Builder, Refusal>,
) -> PropheseeOpening
    requires { Begins recording.now (length records.old) prepared }
    ensures { Answers recording.now prepared records.old result records.new }
{
    match prepared {
        Err(r) => PropheseeOpening::from(Err(r)),
        Ok(first) => {
            let last = make_records(recording, &mut *records, first);
            PropheseeOpening::from(index_build::conclude(last))
        }
    }
}
