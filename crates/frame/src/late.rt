// A refusal is known, and the lines behind it may still break an earlier rule.
ghost use Rattle.std.specs.Prelude.{◌≡◌, Err};
ghost use Rattle.base.specs.Verdicts.{Broken};
ghost use Rattle.base.specs.Bytes.{classes};
ghost use Rattle.frame.specs.Rest.{Tail, after_3, after_4};

use super::lines::{end_of, is_bad_line, is_ended};
use base::Refusal;
use fields::line_tag;

// Stays: a loop goes from a line's end to the next, here and in the pass; an iterator over the lines is no plainer, since it would have to hand
// out a line's place beside its bytes and, where 3 is broken, the place of that as a last item.

// The line at place is bad: that is the refusal, if no line from i on breaks 3.
pub(crate) fn late_line(t: &[u8; 256], m: &[u8], i: usize, place: usize) -> Refusal
    requires { (t.now ≡ classes) × Tail m.now i }
    ensures { after_3 m.now i (Broken 4 place) ≡ Err result }
{
    let e = m.len() - 2;
    let mut at = i;
    while at < e {
        let end = end_of(t, m, at);
        if !is_ended(m, end) {
            return Refusal {
                number: 3,
                place: end,
            };
        }
        at = end + 2;
    }
    Refusal { number: 4, place }
}

// The field at place is wrong: that is the refusal, if no line from i on breaks 3 or 4.
pub(crate) fn late_field(t: &[u8; 256], m: &[u8], i: usize, wrong: u32, place: usize) -> Refusal
    requires { (t.now ≡ classes) × Tail m.now i }
    ensures { after_4 m.now i (Broken wrong place) ≡ Err result }
{
    let dash = m.len() - 2;
    let mut at = i;
    while at < dash {
        let end = end_of(t, m, at);
        if !is_ended(m, end) {
            return Refusal {
                number: 3,
                place: end,
            };
        }
        let line = &m[at..end];
        if is_bad_line(false, line, line_tag(line)) {
            return late_line(t, m, end + 2, at);
        }
        at = end + 2;
    }
    Refusal {
        number: wrong,
        place,
    }
}
