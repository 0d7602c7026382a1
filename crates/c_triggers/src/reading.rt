// What reading with triggers answers, in numbers.
ghost use Rattle.std.specs.Prelude.{◌≡◌};
ghost use Rattle.trigger_rules.specs.Read.{told_trigger_read};
ghost use Rattle.c_triggers.specs.{Reading.trigger_reading_of};

use c_values::refusal::count_of;
use evt_types::Refusal;
use trigger_rules::TriggerReading;

// `refusal` 0: read, and `encoding` (2, 21 or 3), `width`, `height`, `count` (of events) and `triggers`
// tell what. Else the table's number, `told` being the count that a 5 or a 13 tells.
#[repr(C)]
#[derive(Clone, Copy, Default)]
pub struct PropheseeTriggerReading {
    pub refusal: u32,
    pub encoding: u32,
    pub told: usize,
    pub width: usize,
    pub height: usize,
    pub count: usize,
    pub triggers: usize,
}

impl From<Result<TriggerReading, Refusal>> for PropheseeTriggerReading {
    ghost from_gives = { λ a r. r ≡ trigger_reading_of (told_trigger_read a) };

    fn from(answer: Result<TriggerReading, Refusal>) -> PropheseeTriggerReading {
        match answer {
            Ok(r) => {
                let reading = r.reading;
                PropheseeTriggerReading {
                    refusal: 0,
                    encoding: u32::from(reading.encoding),
                    told: 0,
                    width: reading.width,
                    height: reading.height,
                    count: reading.count,
                    triggers: r.triggers,
                }
            }
            Err(r) => PropheseeTriggerReading {
                refusal: u32::from(r),
                told: count_of(r),
                ..PropheseeTriggerReading::default()
            },
        }
    }
}
