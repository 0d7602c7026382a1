// Records of an index as numbers: ten to a record, in the order of the C struct.
ghost use Rattle.std.specs.Prelude.{◌≡◌};
ghost use Rattle.c_index.specs.{Records.flat_record, Records.entries_of, Records.record_in, Records.is_record, Records.checkpoint_in};

use c_values::codec::{DecoderNumbers, codec_of, is_codec};
use evt_types::Encoding;
use evt_types::num::natural_time;
use index_build::{Checkpoint, RawSliceSource};
use index_records::{Judge, Records, are_in_range};

// Where it stands, the events counted before it, their maximum time, and the decoder there.
#[derive(Clone, Copy)]
pub struct PropheseeRecord {
    pub byte_offset: u64,
    pub event_index: u64,
    pub time: u64,
    pub decoder: DecoderNumbers,
}

impl From<Checkpoint> for PropheseeRecord {
    ghost from_gives = { λ c r. r ≡ flat_record c };

    fn from(c: Checkpoint) -> PropheseeRecord {
        PropheseeRecord {
            byte_offset: c.byte_offset as u64,
            event_index: c.event_index as u64,
            time: natural_time(c.time),
            decoder: DecoderNumbers::from(c.codec),
        }
    }
}

impl From<PropheseeRecord> for [u64; 10] {
    ghost from_gives = { λ r a. a ≡ entries_of r };

    fn from(r: PropheseeRecord) -> [u64; 10] {
        let d = r.decoder;
        [
            r.byte_offset,
            r.event_index,
            r.time,
            d.initialised,
            d.time_base,
            d.time,
            d.high_loops,
            d.y,
            d.base_x,
            d.polarity,
        ]
    }
}

impl From<[u64; 10]> for PropheseeRecord {
    ghost from_gives = { λ a r. r ≡ record_in a };

    fn from(a: [u64; 10]) -> PropheseeRecord {
        PropheseeRecord {
            byte_offset: a[0],
            event_index: a[1],
            time: a[2],
            decoder: DecoderNumbers {
                initialised: a[3],
                time_base: a[4],
                time: a[5],
                high_loops: a[6],
                y: a[7],
                base_x: a[8],
                polarity: a[9],
            },
        }
    }
}

// Whether some checkpoint of the encoding has these numbers.
fn is_record(encoding: Encoding, r: PropheseeRecord) -> bool
    ensures { result ≡ is_record encoding r }
{
    r.time < 1 << 63 && is_codec(encoding, r.decoder)
}

// The time is negative where the record is none, which rule 10 refuses.
pub fn checkpoint_in(encoding: Encoding, a: [u64; 10]) -> Checkpoint
    ensures { result ≡ checkpoint_in encoding a }
{
    let r = PropheseeRecord::from(a);
    let time = if is_record(encoding, r) {
        r.time as i64
    } else {
        -1
    };
    Checkpoint {
        byte_offset: r.byte_offset as usize,
        event_index: r.event_index as usize,
        time,
        codec: codec_of(encoding, r.decoder),
    }
}

// Lent records of an encoding.
#[derive(Clone, Copy)]
pub struct LentRecords<'a> {
    pub encoding: Encoding,
    pub entries: &'a [[u64; 10]],
}

impl<'a> Records for LentRecords<'a> {
    ghost use Rattle.c_index.specs.Records.{listed};

    ghost listed = { listed };

    fn count(&self) -> usize {
        self.entries.len()
    }

    fn record(&self, i: usize) -> Checkpoint {
        checkpoint_in(self.encoding, self.entries[i])
    }
}

impl<'a> Judge for LentRecords<'a> {
    // A loop for each encoding, so that the compiler knows which kind of decoder a record has. Never inlined: within a slice they have too
    // few registers.
    #[inline(never)]
    fn in_range(&self, source: RawSliceSource) -> bool {
        let entries = self.entries;
        match self.encoding {
            Encoding::Evt2 => {
                let encoding = Encoding::Evt2;
                are_in_range(&LentRecords { encoding, entries }, source)
            }
            Encoding::Evt21 => {
                let encoding = Encoding::Evt21;
                are_in_range(&LentRecords { encoding, entries }, source)
            }
            Encoding::Evt3 => {
                let encoding = Encoding::Evt3;
                are_in_range(&LentRecords { encoding, entries }, source)
            }
        }
    }
}
