// A whole sheet: its sign, its type, and the first bad record.
ghost use Rattle.std.specs.Prelude.{◌≡◌, true, ◌≤◌, [], ◌∷◌, length};
ghost use Rattle.base.specs.Bytes.{begins, same};
ghost use Rattle.base.specs.Quoted.{bytes};
ghost use Rattle.base.specs.Rules.{then};
ghost use Rattle.types.specs.Walk.{rule_18};
ghost use Rattle.types.specs.Sign.{first_line};
ghost use Rattle.fields.specs.Field.{tag_of};
ghost use Rattle.records.specs.Record.{record_of};
ghost use Rattle.records.specs.Found.{parts_in, pieces_at, pieces_left, bad_sheet_line, named_type, no_type};
ghost use Rattle.records.specs.Rule19.{is_digits, typed, type_number, sheet_sign, judged};

use super::Judged;
use super::parts::{is_digits, is_good};
use super::pieces::{Pieces, parted};
use base::bytes::{ZERO, is_same};
use base::marks::mark_at;
use base::{Refusal, Verdict};
use types::Form;
use types::forms::{count_of, form_of};

// The first part begins with +.
fn has_plus(parts: Pieces) -> bool
    ensures { result ≡ begins 43 (first_line (pieces_left parts.entry)) }
{
    parts.begins(b'+')
}

// The sign, by the first record with the tag 20, ended or not.
fn sign_of(s: &[u8]) -> bool
    ensures { result ≡ sheet_sign s.now }
{
    for l in Pieces::new(b'\n', s, 0) {
        let (tag, parts) = parted(l);
        if is_same(tag, b"20") {
            return has_plus(parts);
        }
    }
    false
}

// The number that three digits are.
// Stays: a fold or a parse of the digits is no plainer, as it needs a bound at each step.
fn number_of(p: &[u8]) -> u32
    requires { is_digits 3 p.now ≡ true }
    ensures { result ≡ type_number p.now }
{
    (p[0] as u32 - ZERO) * 100 + (p[1] as u32 - ZERO) * 10 + (p[2] as u32 - ZERO)
}

// The number of the type that a first record names: MT, and just one part of three digits.
fn type_in(l: &[u8]) -> Option<u32>
    ensures { result ≡ named_type (record_of l.now) }
{
    let (tag, mut parts) = parted(l);
    // The tag first: another record's part is not looked through.
    if !is_same(tag, b"MT") {
        return None;
    }
    let digits = parts.next()?;
    if is_digits(3, digits) && parts.next().is_none() {
        return Some(number_of(digits));
    }
    None
}

// The first bad record from a place on.
fn bad_record(s: &[u8], form: Form, sign: bool, from: usize) -> Verdict
    requires { from ≤ length s.now }
    ensures { result ≡ bad_sheet_line form sign from (pieces_at 10 s.now from) }
{
    let mut at = from;
    for l in Pieces::new(b'\n', s, from) {
        let end = at + l.len();
        let fine = if end == s.len() {
            l.is_empty()
        } else {
            is_good(form, sign, l)
        };
        if !fine {
            return Err(Refusal {
                number: 19,
                place: at,
            });
        }
        at = end + 1;
    }
    Ok(())
}

// 18 behind 19, of the records from a place on.
fn behind_type(s: &[u8], form: Form, sign: bool, from: usize) -> Verdict
    requires { from ≤ length s.now }
    ensures { result ≡ then (bad_sheet_line form sign from (pieces_at 10 s.now from)) (rule_18 form) }
{
    bad_record(s, form, sign, from)?;
    if count_of(form) == 0 {
        return Err(Refusal {
            number: 18,
            place: 0,
        });
    }
    Ok(())
}

// Nothing can be said of a sheet whose first record names no type.
fn unnamed(sign: bool) -> Judged
    ensures { result ≡ no_type sign }
{
    let verdict = Err(Refusal {
        number: 19,
        place: 0,
    });
    Judged {
        verdict,
        form: Form::Other,
        sign,
    }
}

// What a sheet comes to: 19 at its first bad record, then 18 of its type; and its type and sign.
pub fn judge_sheet(s: &[u8]) -> Judged
    ensures { result ≡ judged s.now }
{
    let sign = sign_of(s);
    let e = mark_at(b'\n', s, 0);
    if e == s.len() {
        return unnamed(sign);
    }
    let Some(number) = type_in(&s[..e]) else {
        return unnamed(sign);
    };
    let form = form_of(number);
    let verdict = behind_type(s, form, sign, e + 1);
    Judged {
        verdict,
        form,
        sign,
    }
}
