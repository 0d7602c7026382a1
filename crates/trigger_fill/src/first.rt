// Where triggers can start: a decoder that isn't started has none before the first time word.
ghost use Rattle.std.specs.Prelude.{◌≡◌};
ghost use Rattle.trigger_fill.specs.Start.{start_of};

use crate::form::Format;
use crate::{form, times};

// The index of the first time word, or behind the last word if there is none; 0 if started.
pub fn first<E: Format>(bytes: &[u8], started: bool) -> usize
    ensures { result ≡ start_of E.FORM started bytes.now }
{
    if started {
        return 0;
    }
    let early = bytes
        .chunks_exact(E::FORM.size)
        .take_while(|word| form::kind::<E>(E::word(word, 0)) != times::TYPE)
        .count();
    early * E::FORM.size
}
