// EVT2 for counting loops: whether a word is an event inside the sensor, by two comparisons.
// specs/Evt2Inside.antt says what such a word does.
ghost use Rattle.std.specs.Prelude.{◌≡◌};
ghost use Rattle.read_count.specs.Evt2Inside.{key_bound, is_event_inside};

use evt_types::fields::bits;

// The bound of the key, which is type, column and row: width x 2048, at most 2^22; 0 for a decoder
// that hasn't started.
pub fn key_bound(on: bool, width: u64) -> u64
    ensures { result ≡ key_bound on width }
{
    if on { width.min(2048) * 2048 } else { 0 }
}

// Types 0 and 1 have three zeros above the polarity, so they and the column are compared at once.
pub fn is_event_inside(word: u64, bound: u64, height: u64) -> bool
    ensures { result ≡ is_event_inside bound height word }
{
    let key = bits(word, 29, 3) * 536870912 + bits(word, 0, 22);
    key < bound && bits(word, 0, 11) < height
}
