// A size that may be unknown and a limit that may be absent, as numbers.
ghost use Rattle.std.specs.Prelude.{◌≡◌};
ghost use Rattle.c_values.specs.{Options.size_of, Options.options_of};

use evt_types::SensorSize;
use read::LoadOptions;

// `sized` 0: the size is unknown; else it is `width` by `height`. `limited` 0: there is no limit; else
// it is `max_events`.
#[repr(C)]
#[derive(Clone, Copy)]
pub struct PropheseeOptions {
    pub width: usize,
    pub height: usize,
    pub max_events: usize,
    pub sized: u8,
    pub limited: u8,
}

pub fn size_of(sized: u8, width: usize, height: usize) -> Option<SensorSize>
    ensures { result ≡ size_of sized width height }
{
    (sized != 0).then_some(SensorSize { width, height })
}

impl From<PropheseeOptions> for LoadOptions {
    ghost from_gives = { λ o l. l ≡ options_of o };

    fn from(o: PropheseeOptions) -> LoadOptions {
        LoadOptions {
            sensor_size: size_of(o.sized, o.width, o.height),
            max_events: (o.limited != 0).then_some(o.max_events),
        }
    }
}
