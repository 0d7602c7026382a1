// The maximum of a column, for a size that is derived from the events.
ghost use Rattle.std.specs.Prelude.{◌≡◌};
ghost use Rattle.laws_stream.specs.Mask.{top};

// 0 of none.
pub fn greatest(column: &[u16]) -> u16
    ensures { result ≡ top column.now }
{
    column.iter().fold(0, |most, &x| most.max(x))
}
