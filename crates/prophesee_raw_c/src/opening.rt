// Opening a recording, or headerless words: the index's records are made into lent ones.
ghost use Rattle.c_index.specs.{Opening.OpensRawC, Opening.OpensWordsC};

use c_index::opening::{PropheseeOpenOptions, PropheseeOpening, open_records, prepare_coded};
use index_build::OpenOptions;

#[unsafe(no_mangle)]
pub extern "C" fn prophesee_open(
    recording: &[u8],
    records: &mut [[u64; 10]],
    options: PropheseeOpenOptions,
) -> PropheseeOpening
    ensures { OpensRawC recording.now options result records.old records.new }
{
    let room = records.len();
    let o = OpenOptions::from(options);
    let prepared = index_build::prepare(recording, o, room);
    open_records(recording, &mut *records, prepared)
}

#[unsafe(no_mangle)]
pub extern "C" fn prophesee_open_words(
    words: &[u8],
    encoding: u32,
    records: &mut [[u64; 10]],
    options: PropheseeOpenOptions,
) -> PropheseeOpening
    ensures { OpensWordsC words.now encoding options result records.old records.new }
{
    let room = records.len();
    let prepared = prepare_coded(words, encoding, options, room);
    open_records(words, &mut *records, prepared)
}
