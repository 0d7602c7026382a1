// Bytes and texts: where a text parts, trimming, and names whose case is ignored. Each is one pass over
// the text, and what it yields is a part of the slice.
ghost use Rattle.std.specs.Prelude.{◌≡◌, ◌≤◌, length};
ghost use Rattle.header_text.specs.Text.{is_blank, lower_of, up_to, from, trim_end, trim_of, begins, same};
ghost use Rattle.header_text.specs.Parts.{is_in};

// A set of bytes that a scan stops at.
#[derive(Clone, Copy, Debug, PartialEq, Eq)]
pub enum ByteClass {
    Blank,
    NotBlank,
    NotPercent,
    NotAscii,
    Byte(u8),
}

impl ByteClass {
    fn contains(self, b: u8) -> bool
        ensures { result ≡ is_in self b }
    {
        match self {
            ByteClass::Blank => is_blank(b),
            ByteClass::NotBlank => !is_blank(b),
            ByteClass::NotPercent => b != b'%',
            ByteClass::NotAscii => !b.is_ascii(),
            ByteClass::Byte(x) => b == x,
        }
    }
}

#[tactic(auto, unfolding(crate::specs::Text::is_blank))]
// The bytes 9 to 13 and 32: `is_ascii_whitespace` leaves out 11.
pub fn is_blank(b: u8) -> bool
    ensures { result ≡ is_blank b }
{
    matches!(b, 9..=13 | b' ')
}

// How many bytes stand before the first of the class, or how many there are.
pub fn until(s: &[u8], class: ByteClass) -> usize
    ensures within { result ≤ length s.now }
    ensures first { result ≡ length (up_to (is_in class) s.now) }
{
    s.iter().position(|&b| class.contains(b)).unwrap_or(s.len())
}

pub fn tail_from(s: &[u8], class: ByteClass) -> &[u8]
    ensures { result.now ≡ from (is_in class) s.now }
{
    let n = until(s, class);
    &s[n..]
}

fn trim_end(s: &[u8]) -> &[u8]
    ensures { result.now ≡ trim_end s.now }
{
    match s.iter().rposition(|&b| !is_blank(b)) {
        Some(last) => &s[..=last],
        None => &[],
    }
}

pub fn trim(s: &[u8]) -> &[u8]
    ensures { result.now ≡ trim_of s.now }
{
    trim_end(tail_from(s, ByteClass::NotBlank))
}

// `name` is in lowercase.
pub fn begins_with(s: &[u8], name: &[u8]) -> bool
    ensures { result ≡ begins name.now s.now }
{
    name.len() <= s.len()
        && s.iter()
            .zip(name)
            .all(|(b, n)| b.to_ascii_lowercase() == *n)
}

#[tactic(auto, unfolding(crate::specs::Text::same))]
pub fn is_word(s: &[u8], name: &[u8]) -> bool
    ensures { result ≡ same name.now s.now }
{
    s.len() == name.len() && begins_with(s, name)
}
