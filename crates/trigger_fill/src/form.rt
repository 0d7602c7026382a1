// What of an encoding tells the times and fields of its triggers: one generic loop serves all encodings.
ghost use Rattle.std.specs.Prelude.{◌≡◌, ◌+◌, ◌<◌, ◌^◌};
ghost use Rattle.evt_types.specs.Ahead.{ahead};
ghost use Rattle.trigger_fill.specs.Form.{form2, form21, form3, Known, known2, known21, known3, kind_in, low_in};

use evt_types::fields::bits;
use evt_types::words;
use evt2_decoder::Evt2Decoder;
use evt3_decoder::Decoder;
use evt21_decoder::Evt21Decoder;

// A word's bytes; the bits below its type; the bits below its fields, which are a mask; the bits
// between; the type that sets the time below a grain, 8 where none does; where in a period, by a time
// word's highest bits, the next time word may count a loop; how many bits of its time a trigger has in
// its own word, and of its channel.
#[derive(Clone, Copy)]
pub struct Form {
    pub size: usize,
    pub shift: u64,
    pub from: u64,
    pub width: u64,
    pub fine: u64,
    pub grain: u64,
    pub period: u64,
    pub threshold: u64,
    pub late: u64,
    pub low: u64,
    pub channel: u64,
}

// A format, by its decoder: its numbers, which are constants of the loop, and its words.
pub trait Format {
    ghost use Rattle.trigger_fill.specs.declared.form.Form.{Form};

    ghost FORM: { Form };

    const FORM: Form;

    // The word at index i, 0 if none is whole there.
    fn word(bytes: &[u8], i: usize) -> u64
        requires { i + 7 < 2 ^ 64 }
        ensures { result ≡ ahead FORM.size bytes.now i };

    ghost known: { Known FORM };
}

const EVT2: Form = Form {
    size: Evt2Decoder::WORD_SIZE,
    shift: 28,
    from: 0,
    width: 28,
    fine: 8,
    grain: Evt2Decoder::GRAIN,
    period: Evt2Decoder::PERIOD,
    threshold: Evt2Decoder::THRESHOLD,
    late: 16106127360,
    low: 6,
    channel: 5,
};

impl Format for Evt2Decoder {
    ghost FORM = { form2 };

    const FORM: Form = EVT2;

    ghost known = { known2 };

    fn word(bytes: &[u8], i: usize) -> u64 {
        words::four_at(bytes, i)
    }
}

// Of EVT2's words above a mask of 32 bits.
impl Format for Evt21Decoder {
    ghost FORM = { form21 };

    const FORM: Form = Form {
        size: Evt21Decoder::WORD_SIZE,
        shift: 60,
        from: 32,
        ..EVT2
    };

    ghost known = { known21 };

    fn word(bytes: &[u8], i: usize) -> u64 {
        words::eight_at(bytes, i)
    }
}

impl Format for Decoder {
    ghost FORM = { form3 };

    const FORM: Form = Form {
        size: Decoder::WORD_SIZE,
        shift: 12,
        from: 0,
        width: 12,
        fine: 6,
        grain: Decoder::GRAIN,
        period: Decoder::PERIOD,
        threshold: Decoder::THRESHOLD,
        late: 15728640,
        low: 0,
        channel: 4,
    };

    ghost known = { known3 };

    fn word(bytes: &[u8], i: usize) -> u64 {
        words::two_at(bytes, i)
    }
}

// A word's type.
pub fn kind<E: Format>(word: u64) -> u64
    ensures { result ≡ kind_in E.FORM word }
{
    bits(word, E::FORM.shift, 4)
}

// The bits below its type, above the mask.
pub fn low<E: Format>(word: u64) -> u64
    ensures { result ≡ low_in E.FORM word }
{
    let f = E::FORM;
    bits(word, f.from, f.width)
}
