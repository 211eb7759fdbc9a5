// Records as fields, and the whole message.
ghost use Rattle.std.specs.Prelude.{◌≡◌, true, [], ◌∷◌, ◌++◌, ◌+◌, ◌*◌, ◌-◌, ◌≤◌, length};
ghost use Rattle.base.specs.Calls.{over, Puts};
ghost use Rattle.base.specs.Verdicts.{Fine};
ghost use Rattle.fields.specs.Field.{with_cr_lf, lined, lines_of, message};
ghost use Rattle.records.specs.Record.{record_of};
ghost use Rattle.records.specs.Found.{pieces_at, bad_sheet_line};
ghost use Rattle.records.specs.Rule19.{good, sound, sheet_form, sheet_sign, verdict_19_and_18};
ghost use Rattle.writer.specs.Spread.{cast_parts, content_lines, field_for, spread};
ghost use Rattle.writer.specs.Sheet.{unsaid, crowded, rule_15, some_crowded, message_for};
ghost use Rattle.writer.specs.Steps.{Adds, Within, near, record_stops, record_crowded, records_at};
ghost use Rattle.writer.specs.Runs.{Builds, Told};

use super::cuts::find_cut;
use super::notes::{put_note, put_rpp};
use super::parts::put_parts;
use super::purposes::put_purpose;
use super::runs::put_run;
use super::walk::Walk;
use super::{Cutting, Halt, NewMessage, Step};
use base::Refusal;
use base::bytes::put;
use base::marks::mark_at;
use details::DetailsField;
use records::sheets::judge_sheet;
use records::tags::tag_number;
use roles::Shape;
use roles::parts::first_role;
use roles::shapes::shape_of;
use types::Form;

// As many bytes as a sheet or a message may have.
pub(crate) const ROOM: usize = 10000;

// The content parts of a record, by the shape of its tag.
fn put_content(shape: Shape, sign: bool, l: &[u8], i: usize, out: &mut [u8], at: usize) -> Step
    requires { (length l.now ≤ 10000) × (i ≤ length l.now + 1) × (at + 100000 ≤ near) × (sound sign shape (pieces_at 9 l.now i) ≡ true) }
    ensures { Adds (unsaid sign i (cast_parts shape (pieces_at 9 l.now i))) (crowded sign shape (pieces_at 9 l.now i)) (with_cr_lf (content_lines sign shape (pieces_at 9 l.now i))) out.old at result out.new × Within result (length l.now) (at + 4 * length l.now + 300) }
{
    match shape {
        Shape::Details => put_purpose(sign, DetailsField::In70, l, i, out, at),
        Shape::Note103 => put_rpp(l, i, l.len(), out, at),
        Shape::Note202 => put_note(sign, l, i, out, at),
        _ => put_parts(sign, first_role(shape), l, i, out, at),
    }
}

// Colon, tag, colon: the place behind.
pub(crate) fn put_tag(t: &[u8], out: &mut [u8], at: usize) -> usize
    requires { (length t.now ≤ 10000) × (at ≤ near) }
    ensures { Puts (58 ∷ t.now ++ 58 ∷ []) out.old at result out.new }
{
    put(out, at, b":");
    put(out, at + 1, t);
    put(out, at + 1 + t.len(), b":");
    at + t.len() + 2
}

// A record, without its LF, as a field.
pub(crate) fn put_record(form: Form, sign: bool, l: &[u8], out: &mut [u8], at: usize) -> Step
    requires { (length l.now ≤ 10000) × (at + 200000 ≤ near) × (good form sign (record_of l.now) ≡ true) }
    ensures { Adds (record_stops form sign (record_of l.now)) (record_crowded form sign (record_of l.now)) (with_cr_lf (lined (field_for form sign (record_of l.now)))) out.old at result out.new × Within result (length l.now) (at + 400 * (length l.now + 1)) }
{
    let t = mark_at(b'\t', l, 0);
    let tag = &l[..t];
    let shape = shape_of(form, tag_number(tag));
    let n = put_tag(tag, out, at);
    put_content(shape, sign, l, t + 1, out, n)
}

// The fields of the records from a place on that 19 lets pass, one behind another.
pub(crate) fn put_records(
    s: &[u8],
    from: usize,
    form: Form,
    sign: bool,
    out: &mut [u8],
    at: usize,
) -> Step
    requires { (length s.now ≤ 10000) × (from ≤ length s.now) × (at + 10000000 ≤ near) × (bad_sheet_line form sign from (pieces_at 10 s.now from) ≡ Fine) }
    ensures { Adds (rule_15 form sign from (records_at s.now from)) (some_crowded form sign (records_at s.now from)) (with_cr_lf (lines_of (spread form sign (records_at s.now from)))) out.old at result out.new × Within result 10000 (at + 400 * (length s.now - from)) }
{
    let mut fit = true;
    let mut n = at;
    for (i, record) in Walk::new(s, from) {
        match put_record(form, sign, record, out, n) {
            Ok(m) => n = m,
            Err(Halt::Unfit) => fit = false,
            Err(Halt::Stuck(k)) => return Err(Halt::Stuck(i + k)),
        }
    }
    if !fit {
        return Err(Halt::Unfit);
    }
    Ok(n)
}

// The message of a sheet that 19 lets pass: the records behind the first, which has six bytes.
fn put_message(s: &[u8], form: Form, sign: bool, out: &mut [u8]) -> Step
    requires { (length s.now ≤ 10000) × (7 ≤ length s.now) × (bad_sheet_line form sign 7 (pieces_at 10 s.now 7) ≡ Fine) }
    ensures { Adds (rule_15 form sign 7 (records_at s.now 7)) (some_crowded form sign (records_at s.now 7)) (message (spread form sign (records_at s.now 7))) out.old 0 result out.new }
{
    put(out, 0, b"{4:\r\n");
    let n = put_records(s, 7, form, sign, out, 5)?;
    put(out, n, b"-}");
    Ok(n + 2)
}

// The message of a sheet whose details don't fit their lines: they may run on.
fn build_on(sheet: &[u8], form: Form, sign: bool, out: &mut [u8]) -> Result<NewMessage, Refusal>
    requires sheet_len_bound { (length sheet.now ≤ 10000) × (form ≡ sheet_form sheet.now) × (sign ≡ sheet_sign sheet.now) × (verdict_19_and_18 sheet.now ≡ Fine) }
    requires sheet_value { (rule_15 form sign 7 (records_at sheet.now 7) ≡ Fine) × (some_crowded form sign (records_at sheet.now 7) ≡ true) }
    ensures { Builds sheet.now out.old result out.new }
{
    let stopped = Err(Refusal {
        number: 16,
        place: 0,
    });
    let Form::Mt103 = form else {
        return stopped;
    };
    let Some(cutting) = find_cut(sheet, sign) else {
        return stopped;
    };
    let run = put_run(
        sheet,
        sign,
        &sheet[cutting.start..cutting.cut],
        &sheet[cutting.cut..cutting.end],
        cutting.start,
        cutting.new,
        0,
        out,
    );
    Ok(NewMessage {
        form,
        sign,
        cutting: Some(cutting),
        size: run.at,
    })
}

// A sheet judged, and its message built in the room, as far as that goes.
pub(crate) fn build(sheet: &[u8], out: &mut [u8]) -> Result<NewMessage, Refusal>
    ensures { Builds sheet.now out.old result out.new }
{
    if sheet.len() > ROOM {
        return Err(Refusal {
            number: 1,
            place: ROOM,
        });
    }
    let j = judge_sheet(sheet);
    let form = j.form;
    let sign = j.sign;
    j.verdict?;
    match put_message(sheet, form, sign, out) {
        Ok(n) => Ok(NewMessage {
            form,
            sign,
            cutting: None,
            size: n,
        }),
        Err(Halt::Unfit) => build_on(sheet, form, sign, out),
        Err(Halt::Stuck(k)) => Err(Refusal {
            number: 15,
            place: k,
        }),
    }
}

// The message of a sheet that no rule refuses, put into room that has enough.
pub(crate) fn put_built(
    sheet: &[u8],
    form: Form,
    sign: bool,
    cutting: Option<Cutting>,
    out: &mut [u8],
)
    requires { Told sheet.now form sign cutting × (length (message_for sheet.now) ≤ length out.old) }
    ensures { out.new ≡ over (message_for sheet.now) out.old }
{
    match cutting {
        None => {
            let _ = put_message(sheet, form, sign, out);
        }
        Some(c) => {
            put_run(
                sheet,
                sign,
                &sheet[c.start..c.cut],
                &sheet[c.cut..c.end],
                c.start,
                c.new,
                0,
                out,
            );
        }
    }
}
