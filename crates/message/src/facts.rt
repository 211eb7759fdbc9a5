// 8 to 13: each content is read once; 8 at the first that isn't right, else what 9 to 13 need of the fields.
ghost use Rattle.std.specs.Prelude.{◌≡◌, false, ◌+◌, ◌≤◌, IfSome};
ghost use Rattle.fields.specs.Field.{fields};
ghost use Rattle.fields.specs.Shapes.{unpack};
ghost use Rattle.message.specs.Facts.{within, nothing_yet, with_tag, NotFar, with_found, kpp_at, Unmarked, ReadOf};

use super::parts::Fields;
use contents::tags::held_by;
use types::tags::{TAG_26T, TAG_50K, TAG_56A, TAG_56D, TAG_57A, TAG_57D, TAG_59, TAG_77B};
use values::Finds;
use values::banks::{is_56, is_57};
use values::findings::found_in;

// Places of a date that is no day, a currency that is not the rouble, a 56, a party line whose parts differ, a 26T and a 77B; and whether
// there is a 57, a KPP of the payer, one of the beneficiary.
#[derive(Clone, Copy)]
pub(crate) struct Facts {
    pub day: Option<usize>,
    pub currency: Option<usize>,
    pub bank: Option<usize>,
    pub through: bool,
    pub party: Option<usize>,
    pub payer: bool,
    pub payee: bool,
    pub purpose: Option<usize>,
    pub budget: Option<usize>,
}

// A place inside a content, as a place of the message: the content starts at s.
fn within(s: usize, place: Option<usize>) -> Option<usize>
    requires { IfSome place (λ p. s + p ≤ 100000) }
    ensures { result ≡ within s place }
{
    Some(s + place?)
}

fn nothing() -> Facts
    ensures { result ≡ nothing_yet }
{
    Facts {
        day: None,
        currency: None,
        bank: None,
        through: false,
        party: None,
        payer: false,
        payee: false,
        purpose: None,
        budget: None,
    }
}

// Whether 11 or 13 ask for a field with that tag; most they don't.
fn is_marked(tag: u32) -> bool
    ensures { result ≡ false → Unmarked (unpack tag) }
{
    matches!(
        tag,
        TAG_26T | TAG_56A | TAG_56D | TAG_57A | TAG_57D | TAG_77B
    )
}

// 11 and 13: the field itself, its colon at o.
fn mark(f: &mut Facts, o: usize, tag: u32)
    ensures { f.new ≡ with_tag f.old o (unpack tag) }
{
    if !is_marked(tag) {
        return;
    }
    f.bank = f.bank.or(is_56(tag).then_some(o));
    f.through |= is_57(tag);
    f.purpose = f.purpose.or((tag == TAG_26T).then_some(o));
    f.budget = f.budget.or((tag == TAG_77B).then_some(o));
}

// A KPP, in a field with the tag that is wanted.
fn is_kpp(kpp: bool, tag: u32, want: u32) -> bool
    ensures { result ≡ kpp_at kpp (unpack tag) (unpack want) }
{
    kpp && tag == want
}

// 9, 10, 12 and 13: what is found in its content, which starts at s.
fn note(f: &mut Facts, s: usize, tag: u32, found: &Option<Finds>)
    requires { NotFar s found.now }
    ensures { f.new ≡ with_found f.old s (unpack tag) found.now }
{
    let Some(x) = *found else {
        return;
    };
    f.day = f.day.or(within(s, x.day));
    f.currency = f.currency.or(within(s, x.currency));
    f.party = f.party.or(within(s, x.party));
    f.payer |= is_kpp(x.kpp, tag, TAG_50K);
    f.payee |= is_kpp(x.kpp, tag, TAG_59);
}

// What is found in all contents; or where the first content starts that isn't right.
pub(crate) fn read_fields(held: &Fields) -> Result<Facts, usize>
    ensures { ReadOf held.now.form held.now.sign (fields held.now.message.now) result }
{
    let mut f = nothing();
    for k in 0..held.count() {
        let p = held.at(k);
        let tag = p.tag;
        let start = p.start;
        let end = p.end;
        let Some(found) = found_in(
            held_by(held.form, tag),
            held.sign,
            &held.message[start..end],
        ) else {
            return Err(start);
        };
        mark(&mut f, p.colon, tag);
        note(&mut f, start, tag, &found);
    }
    Ok(f)
}
