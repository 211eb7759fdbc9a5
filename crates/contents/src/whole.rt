// The readers of whole fields: their lines, one after the other.
ghost use Rattle.std.specs.Prelude.{◌≡◌, ◌-◌, ◌≤◌, Bool, [], ◌∷◌, length, drop};
ghost use Rattle.base.specs.Quoted.{bytes};
ghost use Rattle.fields.specs.Lines.{lines_in};
ghost use Rattle.contents.specs.Words.{Line};
ghost use Rattle.contents.specs.Fields.{One, IsBic, IsAccount, Then, Several, In70, In72, InRest, Regulatory};
ghost use Rattle.base.specs.Says.{Says};
ghost use Rattle.contents.specs.Answers.{VoFirst, BesideSaid, CustomerSaid, PayerSaid, BicSaid, NameSaid, Marked, NzpFirst, text_at, NoteSaid, RestSaid, TestsLines, Passes};

use super::lines::{
    Party, Rpp, Tax, WIDTH, is_account, is_bic, is_name, looks_tax, party_line, rpp_line, tax_line,
};
use super::pieces::{are_digits, has_word};
use base::marks::mark_at;
use fields::lines::next_line;

// Beside an account four lines may stand, of which a tax line is one; 70 has four lines, 72 six.
const BESIDE: usize = 4;

const BEHIND_TAX: usize = BESIDE - 1;

const BANK_NAMES: usize = 4;

const LINES_77B: usize = 3;

const LINES_70: usize = 4;

const BEHIND_CODE: usize = LINES_70 - 1;

const LINES_72: usize = 6;

const BEHIND_RPP: usize = LINES_72 - 1;

// The VO code: what opens it, five digits, what closes it; with the sign an apostrophe more at each end.
const VO_MARK: usize = 3;

const SIGNED_MARK: usize = VO_MARK + 1;

const VO: usize = 5;

const VO_SHUT: usize = VO_MARK + VO;

const SIGNED_SHUT: usize = SIGNED_MARK + VO;

pub const CODE: usize = VO_SHUT + 1;

pub const SIGNED_CODE: usize = SIGNED_SHUT + 2;

// 72: /NZP/, in a 202 in front of the code, and // in the later lines.
pub const NZP: usize = 5;

pub const NZP_SIGNED: usize = NZP + SIGNED_CODE;

pub const LATER: usize = 2;

// 50K, 59, 58D: without a tax line; or with one, and where it begins.
#[derive(Clone, Copy)]
pub enum Held {
    Plain,
    Taxed { at: usize, tax: Tax },
}

// 52A, 56A, 57A: a BIC alone; or a party line first.
#[derive(Clone, Copy)]
pub enum Bank {
    Alone,
    Led(Party),
}

// 72: details, or their rest, alone; or an RPP line first.
#[derive(Clone, Copy)]
pub enum Note {
    Plain,
    Dated(Rpp),
}

// Whether a line is that mark and at least one byte behind it.
fn is_marked(mark: &[u8], l: &[u8]) -> bool
    ensures { Says (Marked mark.now (35 - length mark.now) l.now) result }
{
    mark.len() < l.len() && l.len() <= WIDTH && has_word(l, 0, mark)
}

// Whether a line is a later one of 72's details.
fn is_later(l: &[u8]) -> bool
    ensures { Says (Marked (bytes "//") 33 l.now) result }
{
    is_marked(b"//", l)
}

// Whether the lines from there on pass the test that is lent, at least one and no more than that many.
fn are_lines<F: Fn(&[u8]) -> bool>(is_line: F, c: &[u8], from: usize, most: usize) -> bool
    requires { (from ≤ length c.now) × F.IsAlwaysCallable is_line }
    ensures { (test : Line → Bool) → TestsLines (F.post is_line) test → Says (Several (Passes test) most (lines_in (drop from c.now))) result }
{
    let mut at = from;
    for _ in 0..most {
        let e = mark_at(b'\r', c, at);
        if !is_line(&c[at..e]) {
            return false;
        }
        if c.len() <= e {
            return true;
        }
        at = next_line(e, c.len());
    }
    false
}

// Beside the account: perhaps a tax line, then names.
fn beside(twelve: bool, c: &[u8], at: usize) -> Option<Held>
    requires { at ≤ length c.now }
    ensures { BesideSaid twelve at (lines_in (drop at c.now)) result }
{
    let e = mark_at(b'\r', c, at);
    if !looks_tax(&c[at..e]) {
        return are_lines(is_name, c, at, BESIDE).then_some(Held::Plain);
    }
    let tax = tax_line(twelve, &c[at..e])?;
    let fine = e < c.len() && are_lines(is_name, c, next_line(e, c.len()), BEHIND_TAX);
    fine.then_some(Held::Taxed { at, tax })
}

// 59 and, with an INN of ten digits alone, 58D.
pub fn customer(twelve: bool, c: &[u8]) -> Option<Held>
    ensures { CustomerSaid twelve (lines_in c.now) result }
{
    let e = mark_at(b'\r', c, 0);
    if !is_account(&c[..e]) {
        return None;
    }
    if c.len() <= e {
        return None;
    }
    beside(twelve, c, next_line(e, c.len()))
}

// 50K.
pub fn payer(c: &[u8]) -> Option<Held>
    ensures { PayerSaid (lines_in c.now) result }
{
    match c {
        [] => None,
        [b'/', ..] => customer(true, c),
        _ => beside(true, c, 0),
    }
}

// Whether a line begins with the VO code.
fn is_vo(sign: bool, l: &[u8]) -> bool
    ensures { Says (VoFirst sign l.now) result }
{
    if sign {
        SIGNED_CODE <= l.len()
            && has_word(l, 0, b"'(VO")
            && has_word(l, SIGNED_SHUT, b")'")
            && are_digits(l, SIGNED_MARK, VO)
    } else {
        CODE <= l.len()
            && has_word(l, 0, b"(VO")
            && has_word(l, VO_SHUT, b")")
            && are_digits(l, VO_MARK, VO)
    }
}

// How many bytes the VO code takes.
fn code_size(sign: bool) -> usize
    ensures { result ≡ text_at sign }
{
    if sign { SIGNED_CODE } else { CODE }
}

// 70.
pub fn details(sign: bool, c: &[u8]) -> bool
    ensures { Says (In70 sign (lines_in c.now)) result }
{
    let e = mark_at(b'\r', c, 0);
    if WIDTH < e {
        return false;
    }
    if !is_vo(sign, &c[..e]) {
        return false;
    }
    if e < c.len() {
        return are_lines(is_name, c, next_line(e, c.len()), BEHIND_CODE);
    }
    code_size(sign) < e
}

// Whether one line is left, and it is a BIC.
fn is_last_bic(c: &[u8], at: usize) -> bool
    requires { at ≤ length c.now }
    ensures { Says (One IsBic (lines_in (drop at c.now))) result }
{
    let e = mark_at(b'\r', c, at);
    c.len() <= e && is_bic(&c[at..e])
}

// 52A, 56A, 57A.
pub fn bank_by_bic(c: &[u8]) -> Option<Bank>
    ensures { BicSaid (lines_in c.now) result }
{
    let e = mark_at(b'\r', c, 0);
    if c.len() <= e {
        return is_bic(&c[..e]).then_some(Bank::Alone);
    }
    let party = party_line(&c[..e])?;
    is_last_bic(c, next_line(e, c.len())).then_some(Bank::Led(party))
}

// 56D, 57D: the party line.
pub fn bank_by_name(c: &[u8]) -> Option<Party>
    ensures { NameSaid (lines_in c.now) result }
{
    let e = mark_at(b'\r', c, 0);
    let party = party_line(&c[..e])?;
    if c.len() <= e {
        return None;
    }
    are_lines(is_name, c, next_line(e, c.len()), BANK_NAMES).then_some(party)
}

// 58A.
pub fn account_and_bic(c: &[u8]) -> bool
    ensures { Says (Then IsAccount (One IsBic) (lines_in c.now)) result }
{
    let e = mark_at(b'\r', c, 0);
    e < c.len() && is_account(&c[..e]) && is_last_bic(c, next_line(e, c.len()))
}

// 77B.
pub fn regulatory(c: &[u8]) -> bool
    ensures { Says (Regulatory (lines_in c.now)) result }
{
    if c.is_empty() || c[0] != b'/' {
        return false;
    }
    are_lines(is_name, c, 0, LINES_77B)
}

// Whether a content is one line.
pub fn is_one_line(c: &[u8]) -> bool
    ensures { Says (lines_in c.now ≡ c.now ∷ []) result }
{
    c.len() <= mark_at(b'\r', c, 0)
}

// Whether a line begins with /NZP/ and the VO code, within its room.
fn is_nzp(sign: bool, l: &[u8]) -> bool
    ensures { Says (NzpFirst sign l.now) result }
{
    is_marked(b"/NZP/", l) && is_vo(sign, &l[NZP..])
}

fn details_72(sign: bool, c: &[u8], at: usize, most: usize) -> bool
    requires { (at ≤ length c.now) × (1 ≤ most) }
    ensures { Says (In72 sign most (lines_in (drop at c.now))) result }
{
    let e = mark_at(b'\r', c, at);
    if !is_nzp(sign, &c[at..e]) {
        return false;
    }
    if e < c.len() {
        return are_lines(is_later, c, next_line(e, c.len()), most - 1);
    }
    NZP + code_size(sign) < e - at
}

// 72 in 103: the rest of the details, without a code.
fn rest_72(c: &[u8], at: usize, most: usize) -> bool
    requires { (at ≤ length c.now) × (1 ≤ most) }
    ensures { Says (InRest most (lines_in (drop at c.now))) result }
{
    let e = mark_at(b'\r', c, at);
    if !is_marked(b"/NZP/", &c[at..e]) {
        return false;
    }
    c.len() <= e || are_lines(is_later, c, next_line(e, c.len()), most - 1)
}

// 72 in 202. Where the first line is no RPP line, details alone are left.
pub fn rpp_and_details(sign: bool, c: &[u8]) -> Option<Note>
    ensures { NoteSaid sign (lines_in c.now) result }
{
    let e = mark_at(b'\r', c, 0);
    let Some(rpp) = rpp_line(&c[..e]) else {
        return details_72(sign, c, 0, LINES_72).then_some(Note::Plain);
    };
    if c.len() <= e {
        return None;
    }
    details_72(sign, c, next_line(e, c.len()), BEHIND_RPP).then_some(Note::Dated(rpp))
}

// 72 in 103: the same with the rest of the details, which may also be missing behind an RPP line.
pub fn rpp_and_rest(c: &[u8]) -> Option<Note>
    ensures { RestSaid (lines_in c.now) result }
{
    let e = mark_at(b'\r', c, 0);
    let Some(rpp) = rpp_line(&c[..e]) else {
        return rest_72(c, 0, LINES_72).then_some(Note::Plain);
    };
    if c.len() <= e {
        return Some(Note::Dated(rpp));
    }
    rest_72(c, next_line(e, c.len()), BEHIND_RPP).then_some(Note::Dated(rpp))
}
