// The first text of a content that breaks 14, line by line.
ghost use Rattle.std.specs.Prelude.{◌≡◌, true, false, not, ◌||◌, ◌+◌, ◌-◌, ◌≤◌, min, length, drop, eqb};
ghost use Rattle.base.specs.Choice.{pick};
ghost use Rattle.fields.specs.Shapes.{unpack};
ghost use Rattle.alphabets.specs.Pieces.{piece_in};
ghost use Rattle.fields.specs.Lines.{lines_in};
ghost use Rattle.roles.specs.declared.Shape.TheVariants.{Payer, Payee, Agent};
ghost use Rattle.roles.specs.Speech.{name_speeches, details_text, details_speech, note_speeches, speeches};
ghost use Rattle.roles.specs.Found.{lines_past, cast_from, mute_in, found, broken_in};

use super::Shape;
use super::clauses::{breaks_line, starts};
use super::lines::TextLines;
use super::shapes::shape_of;
use alphabets::pieces::read_piece;
use base::marks::mark_at;
use contents::pieces::opens_rpp;
use contents::whole::{LATER, NZP, NZP_SIGNED, SIGNED_CODE};
use fields::lines::next_line;
use types::Form;

// The lines behind the one that ends at end are names, the first in the tax place or not.
// Stays: the answer is a line's place, so a walk over the lines alone is no plainer: it counts the same index beside them.
fn in_names(back: &[u8; 256], c: &[u8], end: usize, tax: bool) -> Option<usize>
    ensures { result ≡ found back.now (name_speeches (end + 2) (cast_from tax (lines_past c.now end))) }
{
    let mut e = end;
    let mut first = tax;
    while e < c.len() {
        let i = next_line(e, c.len());
        let n = mark_at(b'\r', c, i);
        if breaks_line(back, first, &c[i..n]) {
            return Some(e + 2);
        }
        first = false;
        e = n;
    }
    None
}

// The lines of 50K, or of 59 and 58D: an account in front, or a name, which in 50K stands in the tax place.
fn in_party(back: &[u8; 256], c: &[u8], payer: bool) -> Option<usize>
    ensures { result ≡ found back.now (speeches true (pick payer Payer Payee) 0 (lines_in c.now)) }
{
    let e = mark_at(b'\r', c, 0);
    if starts(b'/', &c[..e]) {
        return in_names(back, c, e, true);
    }
    if breaks_line(back, payer, &c[..e]) {
        return Some(0);
    }
    in_names(back, c, e, !payer)
}

fn in_agent(back: &[u8; 256], c: &[u8]) -> Option<usize>
    ensures { result ≡ found back.now (speeches true Agent 0 (lines_in c.now)) }
{
    in_names(back, c, mark_at(b'\r', c, 0), false)
}

// Whether the text that runs over the lines from a place on, behind `front` bytes of the first and `mark` bytes of each later one, is mute.
fn is_mute_text(back: &[u8; 256], c: &[u8], from: usize, front: usize, mark: usize) -> bool
    ensures { result ≡ mute_in (piece_in back.now false (details_text front mark (lines_in (drop from c.now)))) }
{
    let mut latin = false;
    let mut some = false;
    for part in TextLines::new(c, from, front, mark) {
        let Ok(heard) = read_piece(back, latin, part) else {
            return true;
        };
        some |= heard.units != 0;
        latin = heard.latin;
    }
    latin || !some
}

// The lines from a place on are details.
fn in_details(back: &[u8; 256], c: &[u8], at: usize, front: usize, mark: usize) -> Option<usize>
    requires { (at ≤ length c.now + 1) × (mark ≤ 2) }
    ensures { result ≡ found back.now (details_speech front mark at (lines_in (drop at c.now))) }
{
    if !is_mute_text(back, c, at, front, mark) {
        return None;
    }
    let e = mark_at(b'\r', c, at);
    if front < e - at {
        return Some(at + front);
    }
    Some(e + 2 + mark)
}

// The lines of 72: perhaps an RPP line, then one text, behind `front` bytes of its first line.
fn in_note(back: &[u8; 256], c: &[u8], front: usize) -> Option<usize>
    ensures { result ≡ found back.now (note_speeches front 0 (lines_in c.now)) }
{
    let e = mark_at(b'\r', c, 0);
    if !opens_rpp(&c[..e]) {
        return in_details(back, c, 0, front, LATER);
    }
    if c.len() <= e {
        return None;
    }
    in_details(back, c, e + 2, front, LATER)
}

// The first text that breaks 14 in the content of a field with that packed tag, of a message with the sign.
pub fn broken_text(back: &[u8; 256], form: Form, tag: u32, content: &[u8]) -> Option<usize>
    ensures { result ≡ broken_in back.now form (unpack tag) content.now }
{
    match shape_of(form, tag) {
        Shape::Plain => None,
        Shape::Payer => in_party(back, content, true),
        Shape::Payee => in_party(back, content, false),
        Shape::Agent => in_agent(back, content),
        Shape::Details => in_details(back, content, 0, SIGNED_CODE, 0),
        Shape::Note103 => in_note(back, content, NZP),
        Shape::Note202 => in_note(back, content, NZP_SIGNED),
    }
}
