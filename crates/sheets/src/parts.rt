// A field's content as the parts of a record: details, the notes of field 72, and lines, by the shape of the tag.
ghost use Rattle.std.specs.Prelude.{◌≡◌, ◌++◌, ◌+◌, ◌≤◌, length};
ghost use Rattle.base.specs.Calls.{Puts};
ghost use Rattle.fields.specs.Lines.{lines_in};
ghost use Rattle.roles.specs.Speech.{code_size};
ghost use Rattle.records.specs.Record.{tabbed};
ghost use Rattle.roles.specs.declared.Shape.TheVariants as shapes;
ghost use Rattle.sheets.specs.Gather.{code_digits, note_parts};
ghost use Rattle.sheets.specs.Steps.{details_by, rest_text, content_by, joined_parts};

use super::reading::Reading;
use super::rest::rpp_part;
use super::texts::{put_lines, put_over, put_part};
use base::bytes::{front, past, put};
use base::marks::mark_at;
use contents::lines::RPP_MARK;
use contents::pieces::opens_rpp;
use contents::whole::{CODE, LATER, NZP, SIGNED_CODE};
use fields::lines::next_line;
use roles::parts::first_role;
use roles::{Role, Shape};

// The VO digits behind the code's front.
fn digits_of(sign: bool, l: &[u8]) -> &[u8]
    ensures { result.now ≡ code_digits sign l.now }
{
    if sign {
        return front(past(l, 4), 5);
    }
    front(past(l, 3), 5)
}

fn code_size(sign: bool) -> usize
    ensures { (result ≡ code_size sign) × (result ≤ 11) }
{
    if sign { SIGNED_CODE } else { CODE }
}

// VO digits and the text, of lines behind `first` bytes of mark in the first and `mark` bytes in each later one.
fn put_details(r: &Reading, first: usize, mark: usize, c: &[u8], out: &mut [u8], at: usize) -> usize
    requires { (first ≤ 5) × (length c.now ≤ 10000) × (at ≤ 300000) }
    ensures { (result ≤ at + length c.now + 7) × Puts (tabbed (details_by r.now.back.now r.now.sign first mark (lines_in c.now))) out.old at result out.new }
{
    let e = mark_at(b'\r', c, 0);
    let n = put_part(
        r.back,
        false,
        digits_of(r.sign, past(&c[..e], first)),
        out,
        at,
    );
    put(out, n, b"\t");
    put_over(
        r.back,
        r.sign,
        first + code_size(r.sign),
        mark,
        c,
        out,
        n + 1,
    )
}

// 70 of a 103: VO digits and the text, then the rest of it, which is a text by itself.
fn put_whole(r: &Reading, c: &[u8], out: &mut [u8], at: usize) -> usize
    requires { (length c.now ≤ 10000) × (at ≤ 200000) }
    ensures { (result ≤ at + length c.now + 7 + length r.now.rest.now) × Puts (tabbed (joined_parts shapes.Details (rest_text r.now.back.now r.now.sign (lines_in r.now.rest.now)) (details_by r.now.back.now r.now.sign 0 0 (lines_in c.now)))) out.old at result out.new }
{
    let n = put_details(r, 0, 0, c, out, at);
    if r.rest.is_empty() {
        return n;
    }
    put_over(r.back, r.sign, NZP, LATER, r.rest, out, n)
}

// 72 of a 202: what follows /RPP/ or an empty part, then VO digits and text.
fn put_note(r: &Reading, c: &[u8], out: &mut [u8], at: usize) -> usize
    requires { (length c.now ≤ 10000) × (at ≤ 200000) }
    ensures { (result ≤ at + length c.now + 8) × Puts (tabbed (note_parts (details_by r.now.back.now r.now.sign 5 2) (lines_in c.now))) out.old at result out.new }
{
    let e = mark_at(b'\r', c, 0);
    if !opens_rpp(&c[..e]) {
        put(out, at, b"\t");
        return put_details(r, NZP, LATER, c, out, at + 1);
    }
    let n = put_part(r.back, false, past(&c[..e], RPP_MARK), out, at);
    if c.len() <= e {
        return n;
    }
    let i = next_line(e, c.len());
    put_details(r, NZP, LATER, &c[i..], out, n)
}

// The parts of a content, each behind a tab, by the shape of its tag: those of 70 with the rest of the details, those of a 72 of a 103 without it.
pub(crate) fn put_content(r: &Reading, shape: Shape, c: &[u8], out: &mut [u8], at: usize) -> usize
    requires { (length c.now ≤ 10000) × (at ≤ 200000) }
    ensures { (result ≤ at + length c.now + 8 + length r.now.rest.now) × Puts (tabbed (joined_parts shape (rest_text r.now.back.now r.now.sign (lines_in r.now.rest.now)) (content_by r.now.back.now r.now.sign shape (lines_in c.now)))) out.old at result out.new }
{
    match shape {
        Shape::Details => put_whole(r, c, out, at),
        Shape::Note103 => put_part(r.back, false, rpp_part(c), out, at),
        Shape::Note202 => put_note(r, c, out, at),
        _ => put_lines(r.back, r.sign, first_role(shape), 0, c, out, at),
    }
}
