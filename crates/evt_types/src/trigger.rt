// The trigger of one word.
ghost use Rattle.std.specs.Prelude.{◌≡◌};
ghost use Rattle.evt_types.specs.Trigger.{Small, first_trigger, trigger_if};

use crate::RawTrigger;

pub const TYPE: u64 = 10;

// Of a word of type `kind` with these fields, to a decoder that is started or not.
pub fn of_word(started: bool, kind: u64, t: u64, id: u64, value: u64) -> Option<RawTrigger>
    requires { Small (record { t = t; id = id; value = value }) }
    ensures { result ≡ first_trigger (trigger_if started kind (record { t = t; id = id; value = value })) }
{
    if started && kind == TYPE {
        return Some(RawTrigger {
            t: t as i64,
            id: id as u8,
            value: value as u8,
        });
    }
    None
}
