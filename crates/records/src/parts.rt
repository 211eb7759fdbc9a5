// The parts of a record: one by one, and by the shape of its tag.
ghost use Rattle.std.specs.Prelude.{◌≡◌};
ghost use Rattle.fields.specs.Shapes.{goes_on};
ghost use Rattle.roles.specs.declared.Shape.TheVariants.{Payer, Payee};
ghost use Rattle.records.specs.Record.{record_of};
ghost use Rattle.records.specs.Found.{pieces_left};
ghost use Rattle.records.specs.Rule19.{is_digits, general, sole, detailed, rpp_and_detailed, tax_part, untaxed, sound, good};

use super::pieces::{Pieces, parted};
use super::tags::tag_number;
use base::bytes::is_digit;
use roles::Shape;
use roles::clauses::is_inn;
use roles::shapes::shape_of;
use types::Form;

// A part that may stand behind the first.
fn goes_on(p: &[u8]) -> bool
    ensures { result ≡ goes_on p.now }
{
    p.first().is_some_and(|b| *b != b'-' && *b != b':')
}

pub(crate) fn is_digits(n: usize, p: &[u8]) -> bool
    ensures { result ≡ is_digits n p.now }
{
    p.len() == n && p.iter().all(|b| is_digit(*b))
}

// The parts meet the general rules.
fn is_general(mut parts: Pieces) -> bool
    ensures { result ≡ general (pieces_left parts.entry) }
{
    parts.next().is_some_and(|p| !p.is_empty()) && parts.all(|p| goes_on(p))
}

// There is one part, and it is not empty.
fn is_sole(mut parts: Pieces) -> bool
    ensures { result ≡ sole (pieces_left parts.entry) }
{
    parts.next().is_some_and(|p| !p.is_empty()) && parts.next().is_none()
}

fn is_detailed(mut parts: Pieces) -> bool
    ensures { result ≡ detailed (pieces_left parts.entry) }
{
    parts.next().is_some_and(|p| is_digits(5, p)) && is_sole(parts)
}

fn is_rpp_and_detailed(mut parts: Pieces) -> bool
    ensures { result ≡ rpp_and_detailed (pieces_left parts.entry) }
{
    parts.next().is_some() && is_detailed(parts)
}

// The part in the tax place of a payer, empty where there is none: the one behind an account, or the first.
fn payer_part(mut parts: Pieces<'_>) -> &[u8]
    ensures { result.now ≡ tax_part Payer (pieces_left parts.entry) }
{
    let first = parts.next().unwrap_or(&[]);
    if first.first() == Some(&b'/') {
        parts.next().unwrap_or(&[])
    } else {
        first
    }
}

// The same of a payee: the second.
fn payee_part(mut parts: Pieces<'_>) -> &[u8]
    ensures { result.now ≡ tax_part Payee (pieces_left parts.entry) }
{
    parts.next();
    parts.next().unwrap_or(&[])
}

// A part may stand in the tax place: it does not begin with Cyrillic INN and a digit.
fn is_untaxed(sign: bool, part: &[u8]) -> bool
    ensures { result ≡ untaxed sign part.now }
{
    !sign || !is_inn(part)
}

// The parts are right for the shape of their tag.
fn is_sound(shape: Shape, sign: bool, parts: Pieces) -> bool
    ensures { result ≡ sound sign shape (pieces_left parts.entry) }
{
    match shape {
        Shape::Plain | Shape::Agent => is_general(parts),
        Shape::Payer => is_general(parts) && is_untaxed(sign, payer_part(parts)),
        Shape::Payee => is_general(parts) && is_untaxed(sign, payee_part(parts)),
        Shape::Details => is_detailed(parts),
        Shape::Note103 => is_sole(parts),
        Shape::Note202 => is_rpp_and_detailed(parts),
    }
}

// A record behind the first, without its LF.
pub(crate) fn is_good(form: Form, sign: bool, l: &[u8]) -> bool
    ensures { result ≡ good form sign (record_of l.now) }
{
    let (t, parts) = parted(l);
    let tag = tag_number(t);
    tag != 0 && is_sound(shape_of(form, tag), sign, parts)
}
