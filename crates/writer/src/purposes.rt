// Details with their code.
ghost use Rattle.std.specs.Prelude.{◌≡◌, true, [], ◌+◌, ◌≤◌, length, take};
ghost use Rattle.base.specs.Calls.{Puts};
ghost use Rattle.base.specs.Verdicts.{Fine};
ghost use Rattle.fields.specs.Field.{with_cr_lf};
ghost use Rattle.records.specs.Found.{pieces_at};
ghost use Rattle.records.specs.Rule19.{detailed};
ghost use Rattle.details.specs.Layouts.{size_for, lines_for, is_unfit};
ghost use Rattle.details.specs.Front.{code};
ghost use Rattle.writer.specs.Steps.{Adds, Within, near, AddsLaid, AddsDetails};

use super::texts::put_text;
use super::{Halt, Step};
use base::bytes::put;
use details::{DetailsField, lay, size_of};

// No field has room for more bytes of details, its marks and line ends counted.
const ROOM: usize = 250;

// The code with its VO digits; answers its size.
pub(crate) fn put_code(sign: bool, vo: &[u8], out: &mut [u8]) -> usize
    requires { (length vo.now ≡ 5) × (11 ≤ length out.old) }
    ensures { (result ≤ 11) × Puts (code sign vo.now) out.old 0 result out.new }
{
    if sign {
        put(out, 0, b"'(VO");
        put(out, 4, vo);
        put(out, 9, b")'");
        return 11;
    }
    put(out, 0, b"(VO");
    put(out, 3, vo);
    put(out, 8, b")");
    9
}

// A text broken into the lines of its field.
fn lay_lines(into: DetailsField, least: usize, text: &[u8], out: &mut [u8], at: usize) -> Step
    requires { at ≤ near }
    ensures { Adds Fine (is_unfit (size_for into least text.now)) (with_cr_lf (lines_for into least text.now)) out.old at result out.new × Within result 0 (at + 250) }
{
    let Some(n) = size_of(into, least, text) else {
        return Err(Halt::Unfit);
    };
    lay(into, least, text, out, at);
    put(out, at + n, b"\r\n");
    Ok(at + n + 2)
}

// A text behind its front, which stands at the start of the line, as the lines of its field; its first byte is at o.
fn put_laid(
    sign: bool,
    into: DetailsField,
    o: usize,
    text: &[u8],
    line: &mut [u8],
    front: usize,
    out: &mut [u8],
    at: usize,
) -> Step
    requires { (length text.now ≤ 10000) × (o ≤ near) × (at ≤ near) × (length line.old ≡ 250) × (front ≤ length line.old) }
    ensures { AddsLaid sign into o (take front line.old) text.now out.old at result out.new × Within result (o + length text.now) (at + 250) }
{
    let n = put_text(sign, o, text, line, front)?;
    if ROOM < n {
        return Err(Halt::Unfit);
    }
    lay_lines(into, front, &line[..n], out, at)
}

// Details: from i on five VO digits, a tab, and the text up to the end.
pub(crate) fn put_purpose(
    sign: bool,
    into: DetailsField,
    l: &[u8],
    i: usize,
    out: &mut [u8],
    at: usize,
) -> Step
    requires { (length l.now ≤ 10000) × (at ≤ near) × (detailed (pieces_at 9 l.now i) ≡ true) }
    ensures { AddsDetails sign into i (pieces_at 9 l.now i) out.old at result out.new × Within result (length l.now) (at + 250) }
{
    let mut line = [0u8; ROOM];
    let front = put_code(sign, &l[i..i + 5], &mut line);
    put_laid(sign, into, i + 6, &l[i + 6..], &mut line, front, out, at)
}

// The rest of details that run on: no code stands before it.
pub(crate) fn put_rest(
    sign: bool,
    into: DetailsField,
    text: &[u8],
    out: &mut [u8],
    at: usize,
) -> Step
    requires { (length text.now ≤ 10000) × (at ≤ near) }
    ensures { AddsLaid sign into 0 [] text.now out.old at result out.new × Within result (length text.now) (at + 250) }
{
    let mut line = [0u8; ROOM];
    put_laid(sign, into, 0, text, &mut line, 0, out, at)
}
