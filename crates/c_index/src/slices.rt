// An index and a slice's answer in numbers.
ghost use Rattle.std.specs.Prelude.{◌≡◌, ◌≤◌};
ghost use Rattle.slice_rules.specs.Slice.{told_slice};
ghost use Rattle.c_index.specs.{Records.listed, Slicing.records_in, Slicing.source_of, Slicing.used_records, Slicing.sliced_of};

use crate::opening::PropheseeSource;
use crate::records::LentRecords;
use c_values::encoding::{encoding_of, is_known};
use c_values::refusal::count_of;
use evt_types::Refusal;
use index_build::RawSliceSource;

// `refusal` 0: `count` events stand at the front of the columns. Else the table's number, `told`
// being the count that a 5 tells.
#[repr(C)]
#[derive(Clone, Copy)]
pub struct PropheseeSlice {
    pub told: usize,
    pub count: usize,
    pub refusal: u32,
}

impl From<PropheseeSource> for RawSliceSource {
    ghost from_gives = { λ s l. l ≡ source_of s };

    fn from(s: PropheseeSource) -> RawSliceSource {
        RawSliceSource {
            encoding: encoding_of(s.encoding),
            spacing: s.spacing,
            data_offset: s.data_offset,
            len: s.len,
            width: s.width,
            height: s.height,
            n_events: s.n_events,
        }
    }
}

// How many of the lent records a slice uses: C tells a count beside them, of a buffer that may be longer.
pub fn used_records(s: PropheseeSource, lent: usize) -> usize
    ensures used { result ≡ used_records s lent }
    ensures within { result ≤ lent }
{
    if is_known(s.encoding) && s.records <= lent {
        s.records
    } else {
        0
    }
}

// The records that a slice uses.
#[tactic(auto, unfolding(crate::specs::Records::checkpoints_in))]
pub fn lent_records<'a>(s: PropheseeSource, records: &'a [[u64; 10]]) -> LentRecords<'a>
    ensures { listed result ≡ records_in s records.now }
{
    LentRecords {
        encoding: encoding_of(s.encoding),
        entries: &records[..used_records(s, records.len())],
    }
}

impl From<Result<usize, Refusal>> for PropheseeSlice {
    ghost from_gives = { λ a s. s ≡ sliced_of (told_slice a) };

    fn from(answer: Result<usize, Refusal>) -> PropheseeSlice {
        match answer {
            Ok(count) => PropheseeSlice {
                told: 0,
                count,
                refusal: 0,
            },
            Err(r) => PropheseeSlice {
                told: count_of(r),
                count: 0,
                refusal: u32::from(r),
            },
        }
    }
}
