// The clauses of 14 for one name.
ghost use Rattle.std.specs.Prelude.{◌≡◌, false};
ghost use Rattle.base.specs.Quoted.{bytes};
ghost use Rattle.base.specs.Bytes.{is_in, begins};
ghost use Rattle.alphabets.specs.Pieces.{piece_in};
ghost use Rattle.roles.specs.Speech.{as_name, as_tax_name};
ghost use Rattle.roles.specs.Rule14.{is_cyrillic_inn};
ghost use Rattle.roles.specs.Found.{mute_in, breaks_14_in, line_breaks};

use alphabets::pieces::{first_characters, read_piece};
use contents::lines::looks_tax;
use contents::pieces::is_numbered;

fn is_mark(b: u8) -> bool
    ensures { result ≡ is_in b (bytes "/:-") }
{
    matches!(b, b'/' | b':' | b'-')
}

// Whether a line begins with that byte.
pub(crate) fn starts(c: u8, line: &[u8]) -> bool
    ensures { result ≡ begins c line.now }
{
    line.first() == Some(&c)
}

// No reading, or an empty one.
fn is_mute(back: &[u8; 256], text: &[u8]) -> bool
    ensures { result ≡ mute_in (piece_in back.now false text.now) }
{
    match read_piece(back, false, text) {
        Ok(heard) => heard.latin || heard.units == 0,
        Err(_) => true,
    }
}

pub(crate) fn breaks_name(back: &[u8; 256], name: &[u8]) -> bool
    ensures { result ≡ breaks_14_in back.now as_name name.now }
{
    is_mute(back, name) || starts(b'\'', name) && is_mark(first_characters(back, name)[0])
}

// INN in Cyrillic.
const INN: [u8; 3] = [200, 205, 205];

// Whether a reading begins with INN in Cyrillic and a digit.
pub fn is_inn(d: &[u8]) -> bool
    ensures { result ≡ is_cyrillic_inn d.now }
{
    let inn = INN;
    is_numbered(d, &inn)
}

fn breaks_tax(back: &[u8; 256], name: &[u8]) -> bool
    ensures { result ≡ breaks_14_in back.now as_tax_name name.now }
{
    if breaks_name(back, name) {
        return true;
    }
    let f = first_characters(back, name);
    looks_tax(&f) || is_inn(&f)
}

// A line from the tax place on: a tax line there is no text.
// Stays: `tax`, here and in texts, says one thing, that the line stands in the tax place; an enum of two cases says no more.
pub(crate) fn breaks_line(back: &[u8; 256], tax: bool, line: &[u8]) -> bool
    ensures { result ≡ line_breaks back.now tax line.now }
{
    if tax {
        !looks_tax(line) && breaks_tax(back, line)
    } else {
        breaks_name(back, line)
    }
}
