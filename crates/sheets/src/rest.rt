// The 72 of a 103: its RPP part, and the rest of the details that run on from 70.
ghost use Rattle.std.specs.Prelude.{◌≡◌, ◌&&◌, ◌+◌, ◌-◌, ◌≤◌, ◌<◌, length};
ghost use Rattle.base.specs.Bytes.{empty};
ghost use Rattle.fields.specs.Field.{fields};
ghost use Rattle.sheets.specs.Steps.{is_note, rpp_part, rest_in, tag_end, content_in, Part, shape_in, part_at, runs_on};

use base::bytes::{front, past};
use base::marks::mark_at;
use contents::lines::RPP_MARK;
use contents::pieces::opens_rpp;
use fields::line_tag;
use message::parts::Fields;
use roles::Shape;
use roles::shapes::shape_of;
use types::Form;

fn is_note(shape: Shape) -> bool
    ensures { result ≡ is_note shape }
{
    matches!(shape, Shape::Note103)
}

// What follows /RPP/ in the first line; nothing where it begins otherwise.
pub(crate) fn rpp_part(c: &[u8]) -> &[u8]
    ensures { result.now ≡ rpp_part c.now }
{
    let e = mark_at(b'\r', c, 0);
    if !opens_rpp(&c[..e]) {
        return front(c, 0);
    }
    past(&c[..e], RPP_MARK)
}

// The lines from /NZP/ on: those behind an RPP line, or all.
fn rest_in(c: &[u8]) -> &[u8]
    requires { length c.now ≤ 10000 }
    ensures { result.now ≡ rest_in c.now }
{
    let e = mark_at(b'\r', c, 0);
    if !opens_rpp(&c[..e]) {
        return c;
    }
    past(c, e + 2)
}

// Where the second colon stands.
pub(crate) fn tag_end(f: &[u8]) -> usize
    requires { 4 ≤ length f.now }
    ensures { (result ≡ tag_end f.now) × (3 ≤ result) × (result ≤ 4) }
{
    if f[3] == b':' { 3 } else { 4 }
}

fn content_in(f: &[u8]) -> &[u8]
    requires { 4 ≤ length f.now }
    ensures { result.now ≡ content_in f.now }
{
    past(f, tag_end(f) + 1)
}

// Whether a field has no record: it is a 72 of a 103 without an RPP part.
pub(crate) fn is_left_out(shape: Shape, f: &[u8]) -> bool
    requires { 4 ≤ length f.now }
    ensures { result ≡ (is_note shape && empty (rpp_part (content_in f.now))) }
{
    is_note(shape) && rpp_part(content_in(f)).is_empty()
}

// The field at k, without the CR LF behind it.
pub(crate) fn part_at<'a>(f: &Fields<'a>, k: usize) -> &'a [u8]
    requires { k < length (fields f.now.message.now) }
    ensures { (result.now ≡ part_at f.now.message.now f.now.frame.spots k) × Part result.now }
{
    let o = f.frame.spots[k] as usize;
    let e = f.frame.spots[k + 1] as usize;
    &f.message[o..e - 2]
}

// Whether a field is a 72 of a 103. The second digit of its tag tells most others at once.
fn is_72(form: Form, f: &[u8]) -> bool
    requires { Part f.now }
    ensures { result ≡ is_note (shape_in form f.now) }
{
    f[2] == b'2' && is_note(shape_of(form, line_tag(f).unwrap_or(0)))
}

// The rest of the details; it stands in the 72, the last field but one or the last.
pub(crate) fn runs_on<'a>(f: &Fields<'a>) -> &'a [u8]
    ensures { (result.now ≡ runs_on f.now.form f.now.message.now f.now.frame.spots (length (fields f.now.message.now))) × (length result.now ≤ 10000) }
{
    let n = f.count();
    let last_but_one = part_at(f, n - 2);
    if is_72(f.form, last_but_one) {
        return rest_in(content_in(last_but_one));
    }
    let last = part_at(f, n - 1);
    if is_72(f.form, last) {
        return rest_in(content_in(last));
    }
    front(f.message, 0)
}
