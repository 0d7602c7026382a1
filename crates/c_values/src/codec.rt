// A decoder of any encoding as numbers.
ghost use Rattle.std.specs.Prelude.{◌≡◌};
ghost use Rattle.evt_codec.specs.declared.codec.Codec.TheVariants.{Evt2, Evt3};
ghost use Rattle.c_values.specs.{Codec.numbers_of, Codec.is_codec, Codec.codec_of};

use evt_codec::Codec;
use evt_types::Encoding;
use evt2_decoder::Evt2Decoder;
use evt3_decoder::Decoder;
use evt21_decoder::Evt21Decoder;

// `initialised` and `polarity` are 0 or 1. `y`, `base_x` and `polarity` are EVT3's.
#[derive(Clone, Copy, Default)]
pub struct DecoderNumbers {
    pub initialised: u64,
    pub time_base: u64,
    pub time: u64,
    pub high_loops: u64,
    pub y: u64,
    pub base_x: u64,
    pub polarity: u64,
}

impl From<Evt2Decoder> for DecoderNumbers {
    ghost from_gives = { λ d n. n ≡ numbers_of (Evt2 d) };

    fn from(d: Evt2Decoder) -> DecoderNumbers {
        DecoderNumbers {
            initialised: u64::from(d.initialised),
            time_base: d.time_high,
            time: d.time,
            high_loops: d.high_loops,
            ..DecoderNumbers::default()
        }
    }
}

impl From<Decoder> for DecoderNumbers {
    ghost from_gives = { λ d n. n ≡ numbers_of (Evt3 d) };

    fn from(d: Decoder) -> DecoderNumbers {
        DecoderNumbers {
            initialised: u64::from(d.initialised),
            time_base: d.time_base,
            time: d.time,
            high_loops: d.high_loops,
            y: u64::from(d.y),
            base_x: u64::from(d.base_x),
            polarity: u64::from(d.polarity),
        }
    }
}

impl From<Codec> for DecoderNumbers {
    ghost from_gives = { λ c n. n ≡ numbers_of c };

    fn from(codec: Codec) -> DecoderNumbers {
        match codec {
            Codec::Evt2(d) => DecoderNumbers::from(d),
            Codec::Evt21(d) => DecoderNumbers::from(d.evt2()),
            Codec::Evt3(d) => DecoderNumbers::from(d),
        }
    }
}

// Whether some decoder has these numbers.
pub fn is_codec(encoding: Encoding, n: DecoderNumbers) -> bool
    ensures { result ≡ is_codec encoding n }
{
    let place_fits = match encoding {
        Encoding::Evt2 | Encoding::Evt21 => n.y == 0 && n.base_x == 0 && n.polarity == 0,
        Encoding::Evt3 => n.y <= 65535 && n.base_x <= 65535 && n.polarity < 2,
    };
    n.initialised < 2 && place_fits
}

pub fn codec_of(encoding: Encoding, n: DecoderNumbers) -> Codec
    ensures { result ≡ codec_of encoding n }
{
    match encoding {
        Encoding::Evt2 => Codec::Evt2(Evt2Decoder {
            initialised: n.initialised != 0,
            time_high: n.time_base,
            time: n.time,
            high_loops: n.high_loops,
        }),
        Encoding::Evt21 => Codec::Evt21(Evt21Decoder {
            initialised: n.initialised != 0,
            time_high: n.time_base,
            time: n.time,
            high_loops: n.high_loops,
        }),
        Encoding::Evt3 => Codec::Evt3(Decoder {
            initialised: n.initialised != 0,
            time_base: n.time_base,
            time: n.time,
            y: n.y.min(65535) as u16,
            base_x: n.base_x.min(65535) as u16,
            polarity: n.polarity != 0,
            high_loops: n.high_loops,
        }),
    }
}
