// The loop over words by all that each does to a decoder, for every encoding.
ghost use Rattle.std.specs.Prelude.{◌≡◌, ◌+◌, ◌/◌, ◌≤◌, ◌^◌, length, drop};
ghost use Rattle.evt_types.specs.Ahead.{ahead};
ghost use Rattle.evt_codec.specs.Reader.{viewed};
ghost use Rattle.read_fill.specs.Decode.{Bounded};
ghost use Rattle.read_seek.specs.Seek.{sought_from};

use crate::{Sought, strays, times};
use evt_codec::WordLoop;
use evt_codec::word_loop::{Evt2Loop, Evt21Loop};
use evt_types::fields::bits;
use evt_types::words;
use evt3_decoder::WideDecoder;

pub trait Walks: WordLoop {
    // The decoder after the word at index i, and whether the word is of a type that carries events.
    fn pass(self, bytes: &[u8], i: usize) -> (Self, bool)
        requires sane { Self.sane self }
        requires whole { i + Self.reader.size ≤ length bytes.now }
        ensures { (Self.state result.0 ≡ Self.reader.machine.step (Self.state self) (ahead Self.reader.size bytes.now i))
            × (result.1 ≡ Self.reader.carries (ahead Self.reader.size bytes.now i)) };
}

impl Walks for Evt2Loop {
    fn pass(self, bytes: &[u8], i: usize) -> (Self, bool) {
        let w = words::four_at(bytes, i);
        let step = evt2_decoder::advance(self.evt2, w);
        (Evt2Loop { evt2: step.next }, bits(w, 28, 4) < 2)
    }
}

// By the upper halves alone, which do what words of EVT2 do. (Tried: by the whole words; slower, 3.3 against 2.9 ns a word.)
impl Walks for Evt21Loop {
    fn pass(self, bytes: &[u8], i: usize) -> (Self, bool) {
        let w = words::eight_at(bytes, i) >> 32;
        let step = evt2_decoder::advance(self.evt2, w);
        (Evt21Loop { evt2: step.next }, bits(w, 28, 4) < 2)
    }
}

impl Walks for WideDecoder {
    fn pass(self, bytes: &[u8], i: usize) -> (Self, bool) {
        let w = words::two_at(bytes, i);
        let step = WideDecoder::advance(self, w);
        (step.next, times::carries(bits(w, 12, 4)))
    }
}

pub fn walk<D: Walks>(bytes: &[u8], start: D, t0: u64, t1: u64) -> Sought
    requires bounded { D.reader.Bounded (length bytes.now / D.reader.size) (D.state start) }
    requires short { length bytes.now ≤ 2 ^ 30 }
    ensures { (result ≡ sought_from t0 t1 (viewed D.reader (D.state start)) bytes.now)
        × Bounded (length (drop result.at bytes.now)) result.codec }
{
    let size = D::WORD_SIZE;
    let mut s = start;
    let mut stray = false;
    let mut i: usize = 0;
    // The test is for a word's last byte, as the functions of `words` test, whose own test then falls away.
    // (A `for` over indices is no plainer: the one where the loop stops is answered.)
    while i + (size - 1) < bytes.len() {
        let (next, carries) = s.pass(bytes, i);
        let time = next.time();
        if t1 <= time {
            break;
        }
        stray = strays(stray, time, t0, carries);
        s = next;
        i += size;
    }
    Sought {
        at: i,
        stray,
        codec: s.codec(),
    }
}
