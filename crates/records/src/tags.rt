// A record's tag.
ghost use Rattle.std.specs.Prelude.{◌≡◌, [], ◌∷◌};
ghost use Rattle.records.specs.Found.{tag_number};

use base::bytes::{is_capital, is_digit};

fn two_digits(a: u8, b: u8) -> u32
    ensures { result ≡ tag_number (a ∷ b ∷ []) }
{
    if is_digit(a) && is_digit(b) {
        a as u32 * 65536 + b as u32 * 256
    } else {
        0
    }
}

fn with_capital(a: u8, b: u8, c: u8) -> u32
    ensures { result ≡ tag_number (a ∷ b ∷ c ∷ []) }
{
    let number = two_digits(a, b);
    if number != 0 && is_capital(c) {
        number + c as u32
    } else {
        0
    }
}

// A tag of the right shape as one number, 0 for any other.
// Stays: the public promise of tag_number is a number, with 0 for no tag, as in the packed tags of a message.
pub fn tag_number(t: &[u8]) -> u32
    ensures { result ≡ tag_number t.now }
{
    match t {
        [a, b] => two_digits(*a, *b),
        [a, b, c] => with_capital(*a, *b, *c),
        _ => 0,
    }
}
