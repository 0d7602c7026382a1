// The writer: fresh ones, and appending.
ghost use Rattle.std.specs.Prelude.{◌≡◌};
ghost use Rattle.c_writer.specs.{Writer.writer_of, Writer.AppendOwedC};

use c_writer::writer::{PropheseeAppended, PropheseeSink, appended_of, refused_of, writer_of};
use write_append::RawEventSink;

// A fresh writer; `header` 0: it sends no header, else one before its first words.
#[unsafe(no_mangle)]
pub extern "C" fn prophesee_writer(encoding: u32, header: u8) -> PropheseeSink
    ensures { result ≡ writer_of encoding header }
{
    writer_of(encoding, header)
}

// Appends events. A refusal returns the sink as it was, and leaves the output alone.
#[unsafe(no_mangle)]
pub extern "C" fn prophesee_append(
    sink: PropheseeSink,
    width: usize,
    height: usize,
    xs: &[u16],
    ys: &[u16],
    ts: &[i64],
    ps: &[u8],
    output: &mut [u8],
) -> PropheseeAppended
    ensures { AppendOwedC sink width height xs.now ys.now ts.now ps.now output.old
        result output.new }
{
    match RawEventSink::try_from(sink) {
        Ok(s) => {
            let a = write_append::append(s, width, height, xs, ys, ts, ps, &mut *output);
            appended_of(sink, a)
        }
        Err(refusal) => refused_of(sink, refusal),
    }
}
