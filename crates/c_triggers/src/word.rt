// The trigger of one word, in numbers.
ghost use Rattle.std.specs.Prelude.{◌≡◌};
ghost use Rattle.c_triggers.specs.{Word.answer_numbers, Word.trigger_numbers, Word.trigger_outcome_c};

use c_decoder::decoder::PropheseeDecoder;
use evt_codec::Codec;
use evt_types::{RawTrigger, Refusal};

// `refusal` 0: `some` 1 with the word's trigger, or 0 where it has none. Else the table's number.
#[repr(C)]
#[derive(Clone, Copy, Default)]
pub struct PropheseeTrigger {
    pub t: i64,
    pub refusal: u32,
    pub id: u8,
    pub value: u8,
    pub some: u8,
}

impl From<Result<Option<RawTrigger>, Refusal>> for PropheseeTrigger {
    ghost from_gives = { λ a t. t ≡ answer_numbers a };

    fn from(answer: Result<Option<RawTrigger>, Refusal>) -> PropheseeTrigger {
        match answer {
            Ok(Some(g)) => PropheseeTrigger {
                t: g.t,
                refusal: 0,
                id: g.id,
                value: g.value,
                some: 1,
            },
            Ok(None) => PropheseeTrigger::default(),
            Err(r) => PropheseeTrigger {
                refusal: u32::from(r),
                ..PropheseeTrigger::default()
            },
        }
    }
}

// Of the first word of `bytes`; fewer bytes than a word have none.
pub fn word_trigger(decoder: PropheseeDecoder, bytes: &[u8]) -> PropheseeTrigger
    ensures { result ≡ trigger_numbers (trigger_outcome_c decoder bytes.now) }
{
    match Codec::try_from(decoder) {
        Ok(codec) => PropheseeTrigger::from(codec.trigger(bytes)),
        Err(refusal) => PropheseeTrigger::from(Err(refusal)),
    }
}
