// The parts of a record as lines.
ghost use Rattle.std.specs.Prelude.{false, map, ◌+◌, ◌*◌, ◌≤◌, length};
ghost use Rattle.fields.specs.Field.{with_cr_lf};
ghost use Rattle.roles.specs.Parts.{cast_by};
ghost use Rattle.records.specs.Found.{pieces_at};
ghost use Rattle.writer.specs.Spread.{line_for};
ghost use Rattle.writer.specs.Sheet.{unsaid};
ghost use Rattle.writer.specs.Steps.{Adds, Within, near};

use super::Step;
use super::texts::put_line;
use base::marks::mark_at;
use roles::Role;
use roles::parts::{is_spoken, next_role};

// The parts of a record from i on, each as a line.
pub(crate) fn put_parts(
    sign: bool,
    mut role: Role,
    l: &[u8],
    mut i: usize,
    out: &mut [u8],
    mut at: usize,
) -> Step
    requires { (length l.now ≤ 10000) × (i ≤ length l.now + 1) × (at + 100000 ≤ near) }
    ensures { Adds (unsaid sign i (cast_by role (pieces_at 9 l.now i))) false (with_cr_lf (map (line_for sign) (cast_by role (pieces_at 9 l.now i)))) out.old at result out.new × Within result (length l.now) (at + 4 * length l.now + 4) }
{
    // Stays: `put_line` wants each part's place, and an iterator that gives it with the part would stand in for this one loop.
    while i <= l.len() {
        let e = mark_at(b'\t', l, i);
        let p = &l[i..e];
        let spoken = is_spoken(sign, role, p);
        at = put_line(spoken, i, p, out, at)?;
        role = next_role(role, p);
        i = e + 1;
    }
    Ok(at)
}
