// The frame of a message, and the front of its lines.
#![tactic(auto)]

pub mod lines;

ghost use Rattle.std.specs.Prelude.{◌≡◌, [], ◌∷◌};
ghost use Rattle.fields.specs.Frame.{framed};
ghost use Rattle.fields.specs.Shapes.{pack, front_tag, bad_start};
ghost use Rattle.fields.specs.ByLines.{start_at, tag_at};

use base::bytes::{is_capital, is_digit};

// Whether 2 leaves the message alone.
pub fn is_framed(m: &[u8]) -> bool
    ensures { result ≡ framed m.now }
{
    m.starts_with(b"{4:\r\n") && m.ends_with(b"\r\n-}")
}

// The bytes of a tag as one number, 0 for the third where it has two.
fn pack(a: u8, b: u8, c: u8) -> u32
    ensures { result ≡ pack (a ∷ b ∷ c ∷ []) }
{
    u32::from(a) * 65536 + u32::from(b) * 256 + u32::from(c)
}

// The tag at the front of a line as one number, if there is one.
pub fn line_tag(line: &[u8]) -> Option<u32>
    ensures { result ≡ front_tag line.now }
{
    let [b':', a, b, c, behind @ ..] = line else {
        return None;
    };
    if !is_digit(*a) || !is_digit(*b) {
        return None;
    }
    if *c == b':' {
        Some(pack(*a, *b, 0))
    } else if is_capital(*c) && behind.starts_with(b":") {
        Some(pack(*a, *b, *c))
    } else {
        None
    }
}

// Whether a line is bad by its first byte.
pub fn is_bad_start(first: bool, line: &[u8]) -> bool
    ensures { result ≡ bad_start first line.now }
{
    match *line {
        [] | [b'-', ..] => true,
        [b':', ..] => false,
        _ => first,
    }
}

// Where the content of the field with that colon starts.
pub fn start_at(m: &[u8], colon: u32) -> usize
    ensures { result ≡ start_at m.now colon }
{
    let o = colon as usize;
    if m.get(o + 3) == Some(&b':') {
        o + 4
    } else {
        o + 5
    }
}

// The tag of the field with that colon as one number, as line_tag gives it; 0 where the message has too few bytes.
// Stays: `tag_at_lem` says the number itself, of a colon behind which a tag stands, and no other colon is asked.
pub fn tag_at(m: &[u8], colon: u32) -> u32
    ensures { result ≡ tag_at m.now colon }
{
    let o = colon as usize;
    let Some(tag) = m.get(o + 1..o + 4) else {
        return 0;
    };
    match *tag {
        [a, b, b':'] => pack(a, b, 0),
        [a, b, c] => pack(a, b, c),
        _ => 0,
    }
}
