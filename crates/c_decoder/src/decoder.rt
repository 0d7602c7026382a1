// A decoder, the events of a word and one of them, in numbers.
ghost use Rattle.std.specs.Prelude.{◌≡◌, cond, Ok, Err};
ghost use Rattle.evt_types.specs.Outcome.{refuse};
ghost use Rattle.evt_types.specs.declared.Refusal.TheVariants.{StateOutOfRange};
ghost use Rattle.evt_codec.specs.declared.codec.Codec.TheVariants.{Evt2};
ghost use Rattle.read_after.specs.After.{after_raw_outcome};
ghost use Rattle.c_decoder.specs.{Decoder.numbers_in, Decoder.is_decoder, Decoder.codec_in, Decoder.decoder_of, Decoder.new_decoder, Decoder.vector_of};
ghost use Rattle.c_decoder.specs.{Decoder.vector_in, Decoder.event_of, Decoder.next_numbers, Decoder.decoded_of, Decoder.stepped_of};
ghost use Rattle.c_decoder.specs.{Stepping.word_by, Stepping.codec_by};

use c_values::codec::{DecoderNumbers, codec_of, is_codec};
use evt_codec::Codec;
use evt_types::{Encoding, EventVector, RawEvent, Refusal};
use evt2_decoder::Evt2Decoder;

// `initialised` and `polarity` are 0 or 1. `y`, `base_x` and `polarity` are EVT3's.
#[repr(C)]
#[derive(Clone, Copy, Default)]
pub struct PropheseeDecoder {
    pub time_base: u64,
    pub time: u64,
    pub high_loops: u64,
    pub encoding: u32,
    pub y: u16,
    pub base_x: u16,
    pub initialised: u8,
    pub polarity: u8,
}

#[repr(C)]
#[derive(Clone, Copy, Default)]
pub struct PropheseeVector {
    pub t: i64,
    pub mask: u32,
    pub x: u16,
    pub y: u16,
    pub p: u8,
}

// `refusal` 0: the decoder after the word, and its events. Else the table's number, and the decoder
// is as it was.
#[repr(C)]
#[derive(Clone, Copy)]
pub struct PropheseeDecoded {
    pub decoder: PropheseeDecoder,
    pub events: PropheseeVector,
    pub refusal: u32,
}

#[repr(C)]
#[derive(Clone, Copy)]
pub struct PropheseeStepped {
    pub decoder: PropheseeDecoder,
    pub refusal: u32,
}

#[repr(C)]
#[derive(Clone, Copy, Default)]
pub struct PropheseeEvent {
    pub t: i64,
    pub x: u16,
    pub y: u16,
    pub p: u8,
}

// `some` 1: the first event, and the vector without it.
#[repr(C)]
#[derive(Clone, Copy, Default)]
pub struct PropheseeNext {
    pub rest: PropheseeVector,
    pub event: PropheseeEvent,
    pub some: u8,
}

impl From<PropheseeDecoder> for DecoderNumbers {
    ghost from_gives = { λ d n. n ≡ numbers_in d };

    fn from(d: PropheseeDecoder) -> DecoderNumbers {
        DecoderNumbers {
            initialised: u64::from(d.initialised),
            time_base: d.time_base,
            time: d.time,
            high_loops: d.high_loops,
            y: u64::from(d.y),
            base_x: u64::from(d.base_x),
            polarity: u64::from(d.polarity),
        }
    }
}

// The decoder that has these numbers; 10 where none has.
impl TryFrom<PropheseeDecoder> for Codec {
    type Error = Refusal;

    ghost try_from_gives = { λ d r. r ≡ cond (is_decoder d) (Ok (codec_in d)) (Err StateOutOfRange) };

    fn try_from(d: PropheseeDecoder) -> Result<Codec, Refusal> {
        let numbers = DecoderNumbers::from(d);
        match Encoding::try_from(d.encoding) {
            Ok(encoding) if is_codec(encoding, numbers) => Ok(codec_of(encoding, numbers)),
            _ => Err(Refusal::StateOutOfRange),
        }
    }
}

fn evt2_numbers(d: Evt2Decoder) -> PropheseeDecoder
    ensures { result ≡ decoder_of (Evt2 d) }
{
    PropheseeDecoder {
        time_base: d.time_high,
        time: d.time,
        high_loops: d.high_loops,
        encoding: 2,
        initialised: u8::from(d.initialised),
        ..PropheseeDecoder::default()
    }
}

impl From<Codec> for PropheseeDecoder {
    ghost from_gives = { λ c d. d ≡ decoder_of c };

    fn from(codec: Codec) -> PropheseeDecoder {
        match codec {
            Codec::Evt2(d) => evt2_numbers(d),
            Codec::Evt21(d) => PropheseeDecoder {
                encoding: 21,
                ..evt2_numbers(d.evt2())
            },
            Codec::Evt3(d) => PropheseeDecoder {
                time_base: d.time_base,
                time: d.time,
                high_loops: d.high_loops,
                encoding: 3,
                y: d.y,
                base_x: d.base_x,
                initialised: u8::from(d.initialised),
                polarity: u8::from(d.polarity),
            },
        }
    }
}

pub fn new_decoder(encoding: u32) -> PropheseeDecoder
    ensures { result ≡ new_decoder encoding }
{
    PropheseeDecoder {
        encoding,
        ..PropheseeDecoder::default()
    }
}

impl From<EventVector> for PropheseeVector {
    ghost from_gives = { λ v n. n ≡ vector_of v };

    fn from(v: EventVector) -> PropheseeVector {
        PropheseeVector {
            t: v.t,
            mask: v.mask,
            x: v.x,
            y: v.y,
            p: v.p,
        }
    }
}

impl From<PropheseeVector> for EventVector {
    ghost from_gives = { λ n v. v ≡ vector_in n };

    fn from(v: PropheseeVector) -> EventVector {
        EventVector {
            x: v.x,
            y: v.y,
            t: v.t,
            p: v.p,
            mask: v.mask,
        }
    }
}

impl From<RawEvent> for PropheseeEvent {
    ghost from_gives = { λ e n. n ≡ event_of e };

    fn from(e: RawEvent) -> PropheseeEvent {
        PropheseeEvent {
            t: e.t,
            x: e.x,
            y: e.y,
            p: e.p,
        }
    }
}

impl From<Option<(RawEvent, EventVector)>> for PropheseeNext {
    ghost from_gives = { λ o n. n ≡ next_numbers o };

    fn from(next: Option<(RawEvent, EventVector)>) -> PropheseeNext {
        match next {
            Some((event, rest)) => PropheseeNext {
                rest: PropheseeVector::from(rest),
                event: PropheseeEvent::from(event),
                some: 1,
            },
            None => PropheseeNext::default(),
        }
    }
}

pub fn refused_decoded(given: PropheseeDecoder, refusal: Refusal) -> PropheseeDecoded
    ensures { result ≡ decoded_of given (refuse refusal) }
{
    PropheseeDecoded {
        decoder: given,
        events: PropheseeVector::default(),
        refusal: u32::from(refusal),
    }
}

pub fn decoded_of(
    given: PropheseeDecoder,
    next: Codec,
    answer: Result<EventVector, Refusal>,
) -> PropheseeDecoded
    ensures { result ≡ decoded_of given (word_by next answer) }
{
    match answer {
        Ok(v) => PropheseeDecoded {
            decoder: PropheseeDecoder::from(next),
            events: PropheseeVector::from(v),
            refusal: 0,
        },
        Err(r) => refused_decoded(given, r),
    }
}

pub fn stepped_of(given: PropheseeDecoder, answer: Result<Codec, Refusal>) -> PropheseeStepped
    ensures { result ≡ stepped_of given (codec_by answer) }
{
    match answer {
        Ok(c) => PropheseeStepped {
            decoder: PropheseeDecoder::from(c),
            refusal: 0,
        },
        Err(r) => PropheseeStepped {
            decoder: given,
            refusal: u32::from(r),
        },
    }
}

// The decoder after a recording's body; refused, a fresh one of EVT2.
pub fn after_recording(recording: &[u8]) -> PropheseeStepped
    ensures { result ≡ stepped_of (new_decoder 2) (after_raw_outcome recording.now) }
{
    let answer = read_after::decoder_after_raw(recording);
    stepped_of(new_decoder(2), answer)
}
