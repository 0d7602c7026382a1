// Opening: makes the index of a recording into lent records, for all that the crate `index_build` defines
// (`OpensRaw`, `OpensWords` in its specs/Index.antt). One loop, in `make`, makes the records of both
// entries: what it asks stands in `index_build`, specs/Build.antt, what it says in specs/Made.antt.

#![tactic(auto)]

ghost use Rattle.std.specs.Prelude.{length};
ghost use Rattle.index_build.specs.Build.{Begun};
ghost use Rattle.index_build.specs.Index.{OpensRaw, OpensWords};
ghost use Rattle.index_open.specs.Made.{Made};

use evt_types::Refusal;
use index_build::{Builder, Checkpoint, OpenOptions, Opening, WordsOptions};

// Makes the records of a builder one after another, and the answer.
fn make<'a, 'b>(
    recording: &'a [u8],
    records: &'b mut [Checkpoint],
    first: Builder,
) -> Result<Opening, Refusal>
    requires { Begun recording.now (length records.old) first }
    ensures { Made recording.now first result records.old records.new }
{
    let mut builder = first;
    for record in records[..first.cap].iter_mut() {
        *record = builder.advance(recording);
    }
    index_build::conclude(builder)
}

// Makes the index of a recording into the lent records. Refused, no record is touched.
pub fn open<'a, 'b>(
    recording: &'a [u8],
    records: &'b mut [Checkpoint],
    options: OpenOptions,
) -> Result<Opening, Refusal>
    ensures { OpensRaw recording.now options result records.old records.new }
{
    let first = index_build::prepare(recording, options, records.len())?;
    make(recording, records, first)
}

// The same for headerless words.
pub fn open_words<'a, 'b>(
    words: &'a [u8],
    records: &'b mut [Checkpoint],
    options: WordsOptions,
) -> Result<Opening, Refusal>
    ensures { OpensWords words.now options result records.old records.new }
{
    let first = index_build::prepare_words(words, options, records.len())?;
    make(words, records, first)
}
