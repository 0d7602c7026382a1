// The next word that is a trigger, or with which the time becomes late in its period or no longer is,
// and the times there.
ghost use Rattle.std.specs.Prelude.{◌≡◌, ◌*◌};
ghost use Rattle.laws_stream.specs.Words.{words_of};
ghost use Rattle.trigger_fill.specs.Follow.{lead};
ghost use Rattle.trigger_fill.specs.Calm.{notable};
ghost use Rattle.trigger_fill.specs.Reach.{Reached};
ghost use Rattle.trigger_fill.specs.Pulse.{Place};

use crate::form::Format;
use crate::times::Times;
use crate::{back, blocks};

#[derive(Clone, Copy)]
pub struct Stop {
    pub at: usize,
    pub times: Times,
}

// The index of the first notable word, or behind the last word if there is none.
fn find<E: Format>(late: bool, s: &[u8]) -> usize
    ensures { result ≡ lead (notable late E.FORM) (words_of E.FORM.size s.now) * E.FORM.size }
{
    let from = blocks::over::<E>(late, s);
    let calm = s[from..]
        .chunks_exact(E::FORM.size)
        .take_while(|word| !blocks::is_notable_word::<E>(late, word))
        .count();
    from + calm * E::FORM.size
}

// From index i on.
pub fn reach<E: Format>(bytes: &[u8], i: usize, c: Times) -> Stop
    requires { Place E.FORM bytes.now c i }
    ensures { Reached E.FORM bytes.now c i result.times result.at }
{
    let late = c.is_late::<E>();
    let rest = &bytes[i..];
    let n = find::<E>(late, rest);
    let times = back::across::<E>(&rest[..n], c);
    Stop { at: i + n, times }
}
