// The notes of field 72.
ghost use Rattle.std.specs.Prelude.{◌≡◌, true, false, [], ◌∷◌, ◌+◌, ◌-◌, ◌*◌, ◌≤◌, length, take, drop};
ghost use Rattle.alphabets.specs.Bank.{plainly};
ghost use Rattle.fields.specs.Field.{with_cr_lf};
ghost use Rattle.roles.specs.declared.Shape.TheVariants.{Note202};
ghost use Rattle.records.specs.Found.{pieces_at};
ghost use Rattle.records.specs.Rule19.{rpp_and_detailed};
ghost use Rattle.details.specs.Front.{rpp_line};
ghost use Rattle.writer.specs.Spread.{cast_parts, details_lines, note_lines};
ghost use Rattle.writer.specs.Sheet.{stopped_at, unsaid, crowded_details, crowded_note};
ghost use Rattle.writer.specs.Steps.{Adds, Within, near};

use super::Step;
use super::purposes::put_purpose;
use super::texts::put_line;
use base::bytes::put;
use base::marks::mark_at;
use details::DetailsField;

// The line with what follows /RPP/: the part from i to e.
pub(crate) fn put_rpp(l: &[u8], i: usize, e: usize, out: &mut [u8], at: usize) -> Step
    requires { (length l.now ≤ 10000) × (i ≤ e) × (e ≤ length l.now) × (at + 5 ≤ near) }
    ensures { Adds (stopped_at i (plainly (take (e - i) (drop i l.now)))) false (with_cr_lf (rpp_line (take (e - i) (drop i l.now)) ∷ [])) out.old at result out.new × Within result (length l.now) (at + 4 * length l.now + 7) }
{
    put(out, at, b"/RPP/");
    put_line(false, i, &l[i..e], out, at + 5)
}

// The parts of 72 in a 202.
pub(crate) fn put_note(sign: bool, l: &[u8], i: usize, out: &mut [u8], at: usize) -> Step
    requires { (length l.now ≤ 10000) × (at + 100000 ≤ near) × (rpp_and_detailed (pieces_at 9 l.now i) ≡ true) }
    ensures { Adds (unsaid sign i (cast_parts Note202 (pieces_at 9 l.now i))) (crowded_note (crowded_details sign) (pieces_at 9 l.now i)) (with_cr_lf (note_lines (details_lines sign) (pieces_at 9 l.now i))) out.old at result out.new × Within result (length l.now) (at + 4 * length l.now + 300) }
{
    let e = mark_at(b'\t', l, i);
    if e == i {
        return put_purpose(sign, DetailsField::In72, l, e + 1, out, at);
    }
    let n = put_rpp(l, i, e, out, at)?;
    put_purpose(sign, DetailsField::BehindRpp, l, e + 1, out, n)
}
