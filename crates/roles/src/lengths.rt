// 21: how many bytes details have that run on, and where the rest of them begins in 72.
ghost use Rattle.std.specs.Prelude.{◌≡◌, ◌≤◌, length, drop};
ghost use Rattle.fields.specs.Lines.{lines_in};
ghost use Rattle.roles.specs.Speech.{details_text};
ghost use Rattle.roles.specs.Rule21.{size_70, over_from, over_most};

use super::lines::TextLines;
use base::marks::mark_at;
use contents::pieces::opens_rpp;
use contents::whole::{LATER, NZP};

// The most bytes of details that run on.
pub const MOST: usize = 210;

// How many bytes the lines from a place on have behind `front` bytes of the first and `mark` bytes of each later one.
fn text_size(c: &[u8], from: usize, front: usize, mark: usize) -> usize
    ensures { (result ≡ length (details_text front mark (lines_in (drop from c.now)))) × (result ≤ length c.now) }
{
    let mut n = 0;
    for part in TextLines::new(c, from, front, mark) {
        n += part.len();
    }
    n
}

// The text of 72 from its /NZP/ line on, at a place, and what stands in 70.
fn over_from(in70: &[u8], in72: &[u8], at: usize) -> Option<usize>
    ensures { result ≡ over_from (size_70 (lines_in in70.now)) at (lines_in (drop at in72.now)) }
{
    let n = text_size(in70, 0, 0, 0) + text_size(in72, at, NZP, LATER);
    if n <= MOST {
        return None;
    }
    Some(at)
}

// Whether the details in the contents of a 70 and a 72 are too many: where /NZP/ stands in 72 if they are.
pub fn over_most(in70: &[u8], in72: &[u8]) -> Option<usize>
    ensures { result ≡ over_most (size_70 (lines_in in70.now)) (lines_in in72.now) }
{
    let e = mark_at(b'\r', in72, 0);
    if !opens_rpp(&in72[..e]) {
        return over_from(in70, in72, 0);
    }
    if in72.len() <= e {
        return None;
    }
    over_from(in70, in72, e + 2)
}
