// Fields as records, and the whole sheet.
ghost use Rattle.std.specs.Prelude.{◌≡◌, [], ◌∷◌, ◌++◌, ◌+◌, ◌-◌, ◌≤◌, length, take, drop};
ghost use Rattle.base.specs.Calls.{placed, Puts};
ghost use Rattle.base.specs.Verdicts.{Fine};
ghost use Rattle.fields.specs.Field.{field, fields};
ghost use Rattle.fields.specs.Lines.{lines_in};
ghost use Rattle.types.specs.Walk.{rule_18};
ghost use Rattle.message.specs.Message.{verdict_of};
ghost use Rattle.records.specs.Record.{line};
ghost use Rattle.sheets.specs.Gather.{type_record, sheet_of};
ghost use Rattle.sheets.specs.Steps.{tag_end, tag_in, content_in, field_in, Part, rest_text, content_by, joined_parts, record_line, sheet_by};

use super::parts::put_content;
use super::reading::Reading;
use super::rest::{is_left_out, part_at, runs_on, tag_end};
use alphabets::pieces::back_table;
use base::bytes::put;
use fields::line_tag;
use message::parts::Fields;
use roles::Shape;
use roles::shapes::shape_of;
use types::Form;

// The tag of a field; answers where it ends.
fn put_tag(f: &[u8], out: &mut [u8], at: usize) -> usize
    requires { 4 ≤ length f.now }
    ensures { (result ≡ tag_end f.now) × (3 ≤ result) × (result ≤ 4) × (out.new ≡ placed out.old at (take (result - 1) (drop 1 f.now))) }
{
    let t = tag_end(f);
    put(out, at, &f[1..t]);
    t
}

// The record of a field, which is without the CR LF behind it.
fn put_record(r: &Reading, shape: Shape, f: &[u8], out: &mut [u8], at: usize) -> usize
    requires { Part f.now × (at ≤ 180000) }
    ensures { (result ≤ at + length f.now + 7 + length r.now.rest.now) × Puts (line (field (tag_in f.now) (joined_parts shape (rest_text r.now.back.now r.now.sign (lines_in r.now.rest.now)) (content_by r.now.back.now r.now.sign shape (lines_in (content_in f.now))))) ++ 10 ∷ []) out.old at result out.new }
{
    let t = put_tag(f, out, at);
    let n = at + t - 1;
    let e = put_content(r, shape, &f[t + 1..], out, n);
    put(out, e, b"\n");
    e + 1
}

// What a field leaves on the sheet: its record, or nothing.
fn put_field(r: &Reading, form: Form, f: &[u8], out: &mut [u8], at: usize) -> usize
    requires { Part f.now × (at ≤ 180000) }
    ensures { (result ≤ at + length f.now + 7 + length r.now.rest.now) × Puts (record_line r.now.back.now form r.now.sign (rest_text r.now.back.now r.now.sign (lines_in r.now.rest.now)) (field_in f.now)) out.old at result out.new }
{
    let shape = shape_of(form, line_tag(f).unwrap_or(0));
    if is_left_out(shape, f) {
        return at;
    }
    put_record(r, shape, f, out, at)
}

// The first record names the type.
const TYPE_RECORD: usize = 7;

fn put_type(form: Form, out: &mut [u8]) -> usize
    requires { rule_18 form ≡ Fine }
    ensures { (result ≡ 7) × Puts (line (type_record form) ++ 10 ∷ []) out.old 0 result out.new }
{
    match form {
        Form::Mt103 => put(out, 0, b"MT\t103\n"),
        Form::Mt202 => put(out, 0, b"MT\t202\n"),
        Form::Other => {}
    }
    TYPE_RECORD
}

// The records of the fields, the first of them behind seven bytes.
fn put_records(r: &Reading, f: &Fields, out: &mut [u8]) -> usize
    ensures { Puts (line (type_record f.now.form) ++ 10 ∷ sheet_by r.now.back.now f.now.form r.now.sign (rest_text r.now.back.now r.now.sign (lines_in r.now.rest.now)) (fields f.now.message.now)) out.old 0 result out.new }
{
    let mut at = put_type(f.form, out);
    let n = f.count();
    for k in 0..n {
        at = put_field(r, f.form, part_at(f, k), out, at);
    }
    at
}

// The sheet of an accepted message; a place counts on where the room has ended.
pub(crate) fn put_sheet(f: &Fields, out: &mut [u8]) -> usize
    requires { verdict_of f.now.form f.now.message.now ≡ Fine }
    ensures { Puts (sheet_of f.now.form f.now.message.now) out.old 0 result out.new }
{
    let back = back_table();
    let r = Reading {
        back: &back,
        sign: f.sign,
        rest: runs_on(f),
    };
    put_records(&r, f, out)
}
