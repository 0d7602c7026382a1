// What the examples read: a recording of four events, the first three of which share a word.
ghost use Rattle.std.specs.Prelude.{◌≡◌, length};

// The words, from byte 31 on, are 8001 6001 0007 300A 400B 6388 0009 2814. The `ensures` keeps the
// array itself out of its callers' proofs.
pub fn recording() -> [u8; 47]
    ensures { 47 ≡ length result }
{
    *b"% format EVT3\n% geometry 64x48\n\x01\x80\x01\x60\x07\x00\x0a\x30\x0b\x40\x88\x63\x09\x00\x14\x28"
}
