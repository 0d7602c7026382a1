// What the number reader answers, in numbers.
ghost use Rattle.std.specs.Prelude.{◌≡◌};
ghost use Rattle.c_values.specs.{Number.answer_of};

// `valid` 1: the text is a number, of this value. 0: it is none, and `place` tells where.
#[repr(C)]
#[derive(Clone, Copy)]
pub struct PropheseeNumber {
    pub value: usize,
    pub place: usize,
    pub valid: u8,
}

impl From<Result<usize, usize>> for PropheseeNumber {
    ghost from_gives = { λ r n. n ≡ answer_of r };

    fn from(number: Result<usize, usize>) -> PropheseeNumber {
        match number {
            Ok(value) => PropheseeNumber {
                value,
                place: 0,
                valid: 1,
            },
            Err(place) => PropheseeNumber {
                value: 0,
                place,
                valid: 0,
            },
        }
    }
}
