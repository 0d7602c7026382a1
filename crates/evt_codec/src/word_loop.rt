// A decoder as loops over the words of some bytes keep it, whatever the encoding: its word at an index, and what the word does.
// Loops are generic over it, so that the compiler knows which kind of decoder each has. Unlike a `Codec` it does not
// judge itself: its steps require that no sum wraps, which a loop's invariant keeps.
ghost use Rattle.std.specs.Prelude.{◌≡◌, refl, ℕ, ◌+◌, ◌/◌, ◌≤◌, ◌^◌};
ghost use Rattle.evt_types.specs.Ahead.{ahead};
ghost use Rattle.evt_codec.specs.Codec.{Bounded};
ghost use Rattle.evt_codec.specs.Reader.{Reader, evt2, evt21, evt3};
ghost use Rattle.evt_codec.specs.Sound.{Sound, sound2, sound21, sound3, small2, small21, small3};
ghost use Rattle.evt2_decoder.specs.Evt2.{Sane2};
ghost use Rattle.evt2_decoder.specs.Range.{bounded_sane2};
ghost use Rattle.evt21_decoder.specs.Evt21.{as2, of2};
ghost use Rattle.evt3_decoder.specs.Evt3.{Sane3, Slim, slimmed};
ghost use Rattle.evt3_decoder.specs.Range.{bounded_sane3, bounded_slim3};

use crate::Codec;
use evt_types::vector::Vector;
use evt_types::words;
use evt2_decoder::Evt2Decoder;
use evt3_decoder::{Decoder, WideDecoder};
use evt21_decoder::Evt21Decoder;

pub trait WordLoop: Copy {
    // The encoding's decoder, and the state of it that this one is in.
    ghost reader: { Reader };

    ghost state: { Self → reader.State };

    // No sum of a step wraps.
    ghost sane: { Self → Type 0 };

    ghost WORD_SIZE: { ℕ };

    const WORD_SIZE: usize;

    // The word at index i, 0 if none is whole there.
    fn word_at(bytes: &[u8], i: usize) -> u64
        requires { i + WORD_SIZE ≤ 2 ^ 64 }
        ensures { result ≡ ahead reader.size bytes.now i };

    // The decoder after a word, and the word's events.
    fn advance(self, word: u64) -> (Self, Vector)
        requires { sane self }
        ensures { (state result.0 ≡ reader.machine.step (state self) word)
            × (result.1 ≡ reader.vector (state self) word) };

    fn started(self) -> bool
        ensures { result ≡ reader.started (state self) };

    fn time(self) -> u64
        ensures { result ≡ reader.time (state self) };

    fn codec(self) -> Codec
        requires { sane self }
        ensures { result ≡ reader.codec (state self) };

    ghost sound: { Sound reader };

    ghost bounded_sane: { (n : ℕ) (d : Self) → reader.Bounded n (state d) → sane d };

    ghost size: { WORD_SIZE ≡ reader.size };

    ghost small: { reader.size ≤ 8 };

    ghost codec_bounded: { (n : ℕ) (d : Self) → reader.Bounded (n / reader.size) (state d) → Bounded n (reader.codec (state d)) };
}

// EVT2's: no `Evt2Decoder`, since nothing that `prophesee_raw` passes on has a method with a `requires`.
#[derive(Clone, Copy)]
pub struct Evt2Loop {
    pub evt2: Evt2Decoder,
}

impl Evt2Loop {
    pub fn new(d: Evt2Decoder) -> Self
        ensures { result.evt2 ≡ d }
    {
        Evt2Loop { evt2: d }
    }
}

impl WordLoop for Evt2Loop {
    ghost reader = { evt2 };

    ghost state = { λ d. d.evt2 };

    ghost sane = { λ d. Sane2 d.evt2 };

    ghost WORD_SIZE = { 4 };

    ghost sound = { sound2 };

    ghost bounded_sane = { λ n d b. bounded_sane2 b };

    ghost size = { refl };

    ghost small = { small2 };

    ghost codec_bounded = { λ n d b. b };

    const WORD_SIZE: usize = Evt2Decoder::WORD_SIZE;

    fn word_at(bytes: &[u8], i: usize) -> u64 {
        words::four_at(bytes, i)
    }

    fn advance(self, word: u64) -> (Self, Vector) {
        let step = evt2_decoder::advance(self.evt2, word);
        (Evt2Loop { evt2: step.next }, step.events)
    }

    fn started(self) -> bool {
        self.evt2.initialised
    }

    fn time(self) -> u64 {
        self.evt2.time
    }

    fn codec(self) -> Codec {
        Codec::Evt2(self.evt2)
    }
}

// EVT2.1's: a decoder of EVT2, as its steps take it. (Tried: the `Evt21Decoder` itself; a survey takes 4 instructions a word more.)
#[derive(Clone, Copy)]
pub struct Evt21Loop {
    pub evt2: Evt2Decoder,
}

impl Evt21Loop {
    pub fn new(d: Evt21Decoder) -> Self
        ensures { result.evt2 ≡ as2 d }
    {
        Evt21Loop { evt2: d.evt2() }
    }
}

impl WordLoop for Evt21Loop {
    ghost reader = { evt21 };

    ghost state = { λ d. of2 d.evt2 };

    ghost sane = { λ d. Sane2 d.evt2 };

    ghost WORD_SIZE = { 8 };

    ghost sound = { sound21 };

    ghost bounded_sane = { λ n d b. bounded_sane2 b };

    ghost size = { refl };

    ghost small = { small21 };

    ghost codec_bounded = { λ n d b. b };

    const WORD_SIZE: usize = Evt21Decoder::WORD_SIZE;

    fn word_at(bytes: &[u8], i: usize) -> u64 {
        words::eight_at(bytes, i)
    }

    fn advance(self, word: u64) -> (Self, Vector) {
        let step = evt21_decoder::advance(self.evt2, word);
        (Evt21Loop { evt2: step.next }, step.events)
    }

    fn started(self) -> bool {
        self.evt2.initialised
    }

    fn time(self) -> u64 {
        self.evt2.time
    }

    fn codec(self) -> Codec {
        Codec::Evt21(evt21_decoder::of_evt2(self.evt2))
    }
}

// EVT3's, whose numbers have 64 bits.
impl WordLoop for WideDecoder {
    ghost reader = { evt3 };

    ghost state = { slimmed };

    ghost sane = { λ d. Sane3 d × Slim d };

    ghost WORD_SIZE = { 2 };

    ghost sound = { sound3 };

    ghost bounded_sane = { λ n d b. (bounded_sane3 b, bounded_slim3 b) };

    ghost size = { refl };

    ghost small = { small3 };

    ghost codec_bounded = { λ n d b. b };

    const WORD_SIZE: usize = Decoder::WORD_SIZE;

    fn word_at(bytes: &[u8], i: usize) -> u64 {
        words::two_at(bytes, i)
    }

    fn advance(self, word: u64) -> (Self, Vector) {
        let step = WideDecoder::advance(self, word);
        (clean(step.next), step.events)
    }

    fn started(self) -> bool {
        self.initialised
    }

    fn time(self) -> u64 {
        self.time
    }

    fn codec(self) -> Codec {
        Codec::Evt3(self.slim())
    }
}

// The same, field by field: a copy of a whole struct carries its padding through a loop.
fn clean(d: WideDecoder) -> WideDecoder
    ensures { result ≡ d }
{
    WideDecoder {
        initialised: d.initialised,
        time_base: d.time_base,
        time: d.time,
        y: d.y,
        base_x: d.base_x,
        polarity: d.polarity,
        high_loops: d.high_loops,
    }
}
