// What 9, 10, 12 and 13 ask of a content, found where 8 reads it: the readers of contents hand on where the parts stand.
ghost use Rattle.std.specs.Prelude.{◌≡◌, Bool, ◌+◌, ◌≤◌, length};
ghost use Rattle.base.specs.Says.{Says};
ghost use Rattle.fields.specs.Lines.{lines_in};
ghost use Rattle.contents.specs.Fields.{Then, Any, Right};
ghost use Rattle.contents.specs.Answers.{cut, IsA, RppIs, SingleLine};
ghost use Rattle.contents.specs.declared.Content.TheVariants.{Payment};
ghost use Rattle.values.specs.Day.{real_day};
ghost use Rattle.values.specs.Values.{of_first, parties, rpp_dates};
ghost use Rattle.values.specs.Judged.{no_day, bik_differs};
ghost use Rattle.values.specs.Answers.{fault_of, FoundIn};
ghost use Rattle.values.specs.Steps.{made_of, held_found, party_found, bank_found, LedBy, note_found, DatedBy, NoValues, OneLine};

use super::Finds;
use super::days::is_day;
use contents::Content;
use contents::lines::{
    BY_BIK, BY_BOTH, DATE, MONEY, Party, RPP_DATE, RPP_MARK, RPP_VALUE, Rpp, is_own_account,
    is_purpose, is_reference, payment,
};
use contents::pieces::is_just;
use contents::whole::{
    Bank, Held, Note, account_and_bic, bank_by_bic, bank_by_name, customer, details, is_one_line,
    payer, regulatory, rpp_and_details, rpp_and_rest,
};

// 12 compares the last digits of a BIK and of an account, so many.
const LAST: usize = 3;

const BIK_LAST: usize = BY_BIK - LAST;

const ACCOUNT_LAST: usize = BY_BOTH - LAST;

// What is found in a right content, if anything is.
fn made(x: Finds) -> Option<Finds>
    ensures { result ≡ made_of x }
{
    let some = x.day.is_some() || x.currency.is_some() || x.party.is_some() || x.kpp;
    if some { Some(x) } else { None }
}

// Whether the six digits from there on are a day.
fn is_day_at(c: &[u8], at: usize) -> bool
    requires { at + 6 ≤ length c.now }
    ensures { result ≡ real_day (cut at 6 c.now) }
{
    is_day(&c[at..at + DATE])
}

// 32A.
fn paid_found(c: &[u8]) -> Option<Option<Finds>>
    ensures { (sign : Bool) → FoundIn Payment sign (lines_in c.now) result }
{
    if !is_one_line(c) {
        return None;
    }
    payment(c)?;
    Some(made(Finds {
        day: (!is_day_at(c, 0)).then_some(0),
        currency: (!is_just(&c[DATE..MONEY], b"RUB")).then_some(DATE),
        party: None,
        kpp: false,
    }))
}

// 50K, 59, 58D.
fn held_found(h: Held) -> Option<Finds>
    ensures { result ≡ held_found h }
{
    match h {
        Held::Plain => None,
        Held::Taxed { at: _, tax } => made(Finds {
            day: None,
            currency: None,
            party: None,
            kpp: tax.kpp,
        }),
    }
}

// The party line that a content begins with: its start, where its parts differ.
fn party_fault(c: &[u8], p: Party) -> Option<usize>
    requires { Then (IsA p) Any (lines_in c.now) }
    ensures { result ≡ fault_of bik_differs (of_first parties (lines_in c.now)) }
{
    match p {
        Party::Account => None,
        Party::Bik { account } => {
            if !account {
                return None;
            }
            let same = is_just(&c[BIK_LAST..BY_BIK], &c[ACCOUNT_LAST..BY_BOTH]);
            (!same).then_some(0)
        }
    }
}

fn party_found(c: &[u8], p: Party) -> Option<Finds>
    requires { Then (IsA p) Any (lines_in c.now) }
    ensures { result ≡ party_found (lines_in c.now) }
{
    made(Finds {
        day: None,
        currency: None,
        party: party_fault(c, p),
        kpp: false,
    })
}

// 52A, 56A, 57A.
fn bank_found(c: &[u8], b: Bank) -> Option<Finds>
    requires { LedBy (lines_in c.now) b }
    ensures { result ≡ bank_found (lines_in c.now) b }
{
    match b {
        Bank::Alone => None,
        Bank::Led(p) => party_found(c, p),
    }
}

// The RPP line that a content begins with: where the first of its dates stands that is no day.
fn rpp_fault(c: &[u8], rpp: Rpp) -> Option<usize>
    requires { Then (RppIs rpp) Any (lines_in c.now) }
    ensures { result ≡ fault_of no_day (of_first rpp_dates (lines_in c.now)) }
{
    let behind = rpp.number + RPP_MARK;
    let date = RPP_DATE + behind;
    if !is_day_at(c, date) {
        return Some(date);
    }
    if !rpp.value {
        return None;
    }
    let due = RPP_VALUE + behind;
    (!is_day_at(c, due)).then_some(due)
}

// 72.
fn note_found(c: &[u8], n: Note) -> Option<Finds>
    requires { DatedBy (lines_in c.now) n }
    ensures { result ≡ note_found (lines_in c.now) n }
{
    match n {
        Note::Plain => None,
        Note::Dated(rpp) => made(Finds {
            day: rpp_fault(c, rpp),
            currency: None,
            party: None,
            kpp: false,
        }),
    }
}

// A content of one line in which 9 to 13 ask for nothing; right: whether it would be such a line.
fn line_found(content: Content, right: bool, c: &[u8]) -> Option<Option<Finds>>
    requires { NoValues content × OneLine content × Says (SingleLine content c.now) right }
    ensures { (sign : Bool) → FoundIn content sign (lines_in c.now) result }
{
    if !is_one_line(c) {
        return None;
    }
    if right { Some(None) } else { None }
}

// Any other content in which they ask for nothing.
fn plain_found(content: Content, sign: bool, right: bool, c: &[u8]) -> Option<Option<Finds>>
    requires { NoValues content × Says (Right content sign (lines_in c.now)) right }
    ensures { FoundIn content sign (lines_in c.now) result }
{
    if right { Some(None) } else { None }
}

// 8, and what 9, 10, 12 and 13 ask of a right content: what is found in it, if anything is; none for a content that isn't right.
pub fn found_in(content: Content, sign: bool, c: &[u8]) -> Option<Option<Finds>>
    ensures { FoundIn content sign (lines_in c.now) result }
{
    match content {
        Content::Unknown => None,
        Content::Payment => paid_found(c),
        Content::Payer => Some(held_found(payer(c)?)),
        Content::BankByBic => Some(bank_found(c, bank_by_bic(c)?)),
        Content::BankByName => Some(party_found(c, bank_by_name(c)?)),
        Content::BeneficiaryBank => Some(held_found(customer(false, c)?)),
        Content::Beneficiary => Some(held_found(customer(true, c)?)),
        Content::DocumentAndRest => Some(note_found(c, rpp_and_rest(c)?)),
        Content::DocumentAndDetails => Some(note_found(c, rpp_and_details(sign, c)?)),
        Content::Reference => line_found(content, is_reference(c), c),
        Content::Related => line_found(content, is_just(c, b"NONREF"), c),
        Content::Operation => line_found(content, is_just(c, b"CRED"), c),
        Content::Purpose => line_found(content, is_purpose(c), c),
        Content::OwnAccount => line_found(content, is_own_account(c), c),
        Content::Charges => line_found(content, is_just(c, b"OUR"), c),
        Content::AccountAndBic => plain_found(content, sign, account_and_bic(c), c),
        Content::Details => plain_found(content, sign, details(sign, c), c),
        Content::Regulatory => plain_found(content, sign, regulatory(c), c),
    }
}
