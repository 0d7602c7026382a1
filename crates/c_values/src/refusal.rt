// The count of a refusal.
ghost use Rattle.std.specs.Prelude.{◌≡◌};
ghost use Rattle.evt_types.specs.Told.{told};
ghost use Rattle.c_values.specs.{Reading.count_of};

use evt_types::Refusal;

// The count that it tells, or 0.
pub fn count_of(refusal: Refusal) -> usize
    ensures { result ≡ count_of (told refusal) }
{
    match refusal {
        Refusal::ColumnsTooShort(n)
        | Refusal::TooFewRecords(n)
        | Refusal::OutputTooShort(n)
        | Refusal::TriggerColumnsTooShort(n) => n,
        _ => 0,
    }
}
