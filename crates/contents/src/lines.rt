// The readers of single lines.
ghost use Rattle.std.specs.Prelude.{◌≡◌, ◌+◌, ◌≤◌, length};
ghost use Rattle.contents.specs.Fields.{IsPurpose, IsAccount, IsOwnAccount, IsBic};
ghost use Rattle.contents.specs.Tests.{looks_tax};
ghost use Rattle.contents.specs.Lines.{Name, Way, Reference};
ghost use Rattle.base.specs.Says.{Says};
ghost use Rattle.contents.specs.Answers.{cut, HasPair, RppBody, Pointed, EndsIn, PartySaid, InnSaid, TaxSaid, PaidSaid, RppSaid};

use super::pieces::{
    are_capitals, are_capitals_or_digits, are_digits, digits_from, has_word, is_just, is_numbered,
};

// How wide a line may be, and an account behind its slash.
pub(crate) const WIDTH: usize = 35;

const SLASH: usize = 1;

// A tax line: INN, 10 or 12 digits, and perhaps .KPP and nine digits.
const INN_MARK: usize = 3;

const KPP_MARK: usize = 4;

const KPP: usize = 9;

const TEN: usize = 10;

const TWELVE: usize = 12;

const WITH_TEN: usize = INN_MARK + TEN;

const WITH_TWELVE: usize = INN_MARK + TWELVE;

const TEN_AND_KPP: usize = WITH_TEN + KPP_MARK + KPP;

const TWELVE_AND_KPP: usize = WITH_TWELVE + KPP_MARK + KPP;

// 32A: a date, a currency, and an amount, of which a comma is one byte.
pub const DATE: usize = 6;

const CURRENCY: usize = 3;

pub const COMMA: usize = 1;

const AMOUNT: usize = 15;

const MOST_DIGITS: usize = AMOUNT - COMMA;

const MOST_DECIMALS: usize = 2;

pub const MONEY: usize = DATE + CURRENCY;

const SHORTEST_PAID: usize = MONEY + 1 + COMMA;

const LONGEST_PAID: usize = MONEY + AMOUNT;

// An RPP line behind its mark and its number: point, date, point, digit, point, way; perhaps point and date; and perhaps point and two digits.
pub const RPP_MARK: usize = 5;

const MOST_NUMBER: usize = 6;

const POINT: usize = 1;

const TURN: usize = 1;

const WAY: usize = 4;

pub const RPP_DATE: usize = POINT;

const SECOND_POINT: usize = RPP_DATE + DATE;

const RPP_TURN: usize = SECOND_POINT + POINT;

const THIRD_POINT: usize = RPP_TURN + TURN;

const RPP_WAY: usize = THIRD_POINT + POINT;

const RPP_BODY: usize = RPP_WAY + WAY;

pub const RPP_VALUE: usize = RPP_BODY + POINT;

const DUE: usize = POINT + DATE;

const SORT: usize = 2;

const SHORTEST_RPP: usize = RPP_MARK + 1 + RPP_BODY;

// Our account: /D/ and 20 digits.
const OWN_MARK: usize = 3;

const ACCOUNT: usize = 20;

const OWN: usize = OWN_MARK + ACCOUNT;

// A BIC: four letters, two letters, two letters or digits, perhaps three more.
const BANK: usize = 4;

const LAND: usize = 2;

const PLACE: usize = 2;

const BRANCH: usize = 3;

const BIC_PLACE: usize = BANK + LAND;

const SHORT_BIC: usize = BIC_PLACE + PLACE;

const LONG_BIC: usize = SHORT_BIC + BRANCH;

// A party line: / and an account; or //RU, a BIK, and perhaps a point and an account.
const BY_ACCOUNT: usize = SLASH + ACCOUNT;

const BIK_MARK: usize = 4;

const BIK: usize = 9;

pub const BY_BIK: usize = BIK_MARK + BIK;

const BIK_ACCOUNT: usize = BY_BIK + POINT;

pub const BY_BOTH: usize = BIK_ACCOUNT + ACCOUNT;

// A reference, and the numbers of purposes.
const REFERENCE: usize = 16;

const LAST_PURPOSE: u8 = 26;

// A tax line: the size of its INN, and whether a KPP stands behind it.
#[derive(Clone, Copy)]
pub struct Tax {
    pub inn: usize,
    pub kpp: bool,
}

// 32A: the sizes of the whole part and of the decimals behind the comma.
#[derive(Clone, Copy)]
pub struct Paid {
    pub whole: usize,
    pub decimals: usize,
}

// An RPP line: the size of its number, and whether it has a value date.
#[derive(Clone, Copy)]
pub struct Rpp {
    pub number: usize,
    pub value: bool,
}

// A party line: an account; or a BIK, and whether an account stands behind it.
#[derive(Clone, Copy)]
pub enum Party {
    Account,
    Bik { account: bool },
}

pub fn is_name(l: &[u8]) -> bool
    ensures { Says (Name l.now) result }
{
    !l.is_empty() && l.len() <= WIDTH
}

pub fn is_account(l: &[u8]) -> bool
    ensures { Says (IsAccount l.now) result }
{
    2 <= l.len() && l.len() <= WIDTH && l[0] == b'/' && l[1] != b'/'
}

// Whether a line in the tax place is taken for a tax line: it begins INN and a digit.
pub fn looks_tax(l: &[u8]) -> bool
    ensures { result ≡ looks_tax l.now }
{
    is_numbered(l, b"INN")
}

fn inn_size(twelve: bool, size: usize) -> Option<usize>
    ensures { InnSaid twelve size result }
{
    match size {
        WITH_TEN | TEN_AND_KPP => Some(TEN),
        WITH_TWELVE | TWELVE_AND_KPP if twelve => Some(TWELVE),
        _ => None,
    }
}

pub fn tax_line(twelve: bool, l: &[u8]) -> Option<Tax>
    ensures { TaxSaid twelve l.now result }
{
    let inn = inn_size(twelve, l.len())?;
    if !has_word(l, 0, b"INN") {
        return None;
    }
    if !are_digits(l, INN_MARK, inn) {
        return None;
    }
    if l.len() == inn + INN_MARK {
        return Some(Tax { inn, kpp: false });
    }
    if !has_word(l, inn + INN_MARK, b".KPP") {
        return None;
    }
    if !are_digits(l, KPP_MARK + (inn + INN_MARK), KPP) {
        return None;
    }
    Some(Tax { inn, kpp: true })
}

pub fn payment(l: &[u8]) -> Option<Paid>
    ensures { PaidSaid l.now result }
{
    if l.len() < SHORTEST_PAID {
        return None;
    }
    if LONGEST_PAID < l.len() {
        return None;
    }
    if !are_digits(l, 0, DATE) {
        return None;
    }
    if !are_capitals(l, DATE, CURRENCY) {
        return None;
    }
    let whole = digits_from(l, MONEY, MOST_DIGITS);
    if whole < 1 {
        return None;
    }
    let comma = whole + MONEY;
    if l.len() <= comma {
        return None;
    }
    let decimals = l.len() - (COMMA + comma);
    if MOST_DECIMALS < decimals {
        return None;
    }
    if !has_word(l, comma, b",") {
        return None;
    }
    if !are_digits(l, COMMA + comma, decimals) {
        return None;
    }
    Some(Paid { whole, decimals })
}

fn is_way(l: &[u8], i: usize) -> bool
    requires { 4 + i ≤ length l.now }
    ensures { Says (Way (cut i 4 l.now)) result }
{
    matches!(&l[i..i + WAY], b"POST" | b"TELG" | b"ELEK" | b"BESP")
}

// What stands behind an RPP line's number: a date, a digit, a way of payment, each with its point.
fn is_rpp_body(l: &[u8], i: usize) -> bool
    requires { 14 + i ≤ length l.now }
    ensures { Says (RppBody i l.now) result }
{
    l[i] == b'.'
        && l[SECOND_POINT + i] == b'.'
        && l[THIRD_POINT + i] == b'.'
        && are_digits(l, RPP_DATE + i, DATE)
        && are_digits(l, RPP_TURN + i, TURN)
        && is_way(l, RPP_WAY + i)
}

// Whether a point and n digits stand from i on.
fn is_pointed(l: &[u8], i: usize, n: usize) -> bool
    requires { n + (1 + i) ≤ length l.now }
    ensures { Says (Pointed i n l.now) result }
{
    l[i] == b'.' && are_digits(l, POINT + i, n)
}

// Whether the line ends at i, or in a point and n digits that stand there.
fn ends_in(l: &[u8], i: usize, n: usize) -> bool
    requires { i ≤ length l.now }
    ensures { Says (EndsIn i n l.now) result }
{
    l.len() == i || l.len() - (POINT + i) == n && is_pointed(l, i, n)
}

pub fn rpp_line(l: &[u8]) -> Option<Rpp>
    ensures { RppSaid l.now result }
{
    if l.len() < SHORTEST_RPP {
        return None;
    }
    if !has_word(l, 0, b"/RPP/") {
        return None;
    }
    let number = digits_from(l, RPP_MARK, MOST_NUMBER);
    if number < 1 {
        return None;
    }
    let i = number + RPP_MARK;
    if l.len() < RPP_BODY + i {
        return None;
    }
    if !is_rpp_body(l, i) {
        return None;
    }
    let end = RPP_BODY + i;
    if l.len() < DUE + end {
        if !ends_in(l, end, SORT) {
            return None;
        }
        return Some(Rpp {
            number,
            value: false,
        });
    }
    if !is_pointed(l, end, DATE) {
        return None;
    }
    if !ends_in(l, DUE + end, SORT) {
        return None;
    }
    Some(Rpp {
        number,
        value: true,
    })
}

pub fn is_own_account(l: &[u8]) -> bool
    ensures { Says (IsOwnAccount l.now) result }
{
    l.len() == OWN && has_word(l, 0, b"/D/") && are_digits(l, OWN_MARK, ACCOUNT)
}

pub fn is_bic(l: &[u8]) -> bool
    ensures { Says (IsBic l.now) result }
{
    if l.len() < SHORT_BIC {
        return false;
    }
    let short = are_capitals(l, 0, BANK)
        && are_capitals(l, BANK, LAND)
        && are_capitals_or_digits(l, BIC_PLACE, PLACE);
    short
        && (l.len() == SHORT_BIC
            || l.len() == LONG_BIC && are_capitals_or_digits(l, SHORT_BIC, BRANCH))
}

pub fn party_line(l: &[u8]) -> Option<Party>
    ensures { PartySaid l.now result }
{
    if l.len() == BY_ACCOUNT {
        if !has_word(l, 0, b"/") {
            return None;
        }
        if are_digits(l, SLASH, ACCOUNT) {
            return Some(Party::Account);
        }
        return None;
    }
    if l.len() < BY_BIK {
        return None;
    }
    if !has_word(l, 0, b"//RU") {
        return None;
    }
    if !has_word(l, BIK_MARK, b"04") {
        return None;
    }
    if !are_digits(l, BIK_MARK, BIK) {
        return None;
    }
    if l.len() == BY_BIK {
        return Some(Party::Bik { account: false });
    }
    if l.len() != BY_BOTH {
        return None;
    }
    if !has_word(l, BY_BIK, b".") {
        return None;
    }
    if !are_digits(l, BIK_ACCOUNT, ACCOUNT) {
        return None;
    }
    Some(Party::Bik { account: true })
}

// Whether // stands in it.
fn has_pair(l: &[u8]) -> bool
    ensures { Says (HasPair l.now) result }
{
    for i in 1..l.len() {
        if l[i - 1] == b'/' && l[i] == b'/' {
            return true;
        }
    }
    false
}

pub fn is_reference(l: &[u8]) -> bool
    ensures { Says (Reference l.now) result }
{
    if l.is_empty() || REFERENCE < l.len() {
        return false;
    }
    l[0] != b'/' && l[l.len() - 1] != b'/' && !has_pair(l) && !is_just(l, b"+")
}

pub fn is_purpose(l: &[u8]) -> bool
    ensures { Says (IsPurpose l.now) result }
{
    let [b'S', tens @ b'0'..=b'9', ones @ b'0'..=b'9'] = *l else {
        return false;
    };
    matches!((tens - b'0') * 10 + (ones - b'0'), 1..=14 | 16..=LAST_PURPOSE)
}
