// A case's bytes: `HEX`, or `HEX*K*N`, where the last K bytes come again and again until there are N.
use crate::text;

// The bytes go to the start of `into`. Answers how many there are.
pub fn read(s: &[u8], into: &mut [u8]) -> usize {
    let n = text::read_hex(text::field(s, b'*', 0), into);
    let k = text::number(text::field(s, b'*', 1)) as usize;
    let end = text::number(text::field(s, b'*', 2)) as usize;
    for i in n..end {
        if k <= i && i < into.len() {
            into[i] = into[i - k];
        }
    }
    n.max(end)
}
