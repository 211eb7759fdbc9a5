// Texts and lines of a content put as parts. A place counts on where the room has ended.
ghost use Rattle.std.specs.Prelude.{◌≡◌, false, ◌∷◌, map, ◌+◌, ◌≤◌, length, drop};
ghost use Rattle.base.specs.Calls.{Puts};
ghost use Rattle.fields.specs.Lines.{lines_in};
ghost use Rattle.records.specs.Record.{tabbed};
ghost use Rattle.sheets.specs.Steps.{said_by, side_by, parts_by, text_pieces, over_by};

use alphabets::parts::put_piece;
use base::bytes::put;
use roles::Role;
use roles::lines::TextLines;
use roles::parts::{is_spoken, next_role};

// The place behind a piece of a text, and the side there.
#[derive(Clone, Copy)]
struct Behind {
    at: usize,
    latin: bool,
}

// A piece of a text, spoken or as it is.
fn put_text(
    back: &[u8; 256],
    spoken: bool,
    latin: bool,
    p: &[u8],
    out: &mut [u8],
    at: usize,
) -> Behind
    requires { (length p.now ≤ 10000) × (at ≤ 600000) }
    ensures { (result.latin ≡ side_by back.now spoken latin p.now) × (result.at ≤ at + length p.now) × Puts (said_by back.now spoken latin p.now) out.old at result.at out.new }
{
    if !spoken {
        put(out, at, p);
        return Behind {
            at: at + p.len(),
            latin,
        };
    }
    match put_piece(back, latin, p, out, at) {
        Ok(heard) => Behind {
            at: at + heard.units,
            latin: heard.latin,
        },
        Err(_) => Behind { at, latin },
    }
}

// A part: a tab and its text.
pub(crate) fn put_part(back: &[u8; 256], spoken: bool, p: &[u8], out: &mut [u8], at: usize) -> usize
    requires { (length p.now ≤ 10000) × (at ≤ 500000) }
    ensures { (result ≤ at + 1 + length p.now) × Puts (9 ∷ said_by back.now spoken false p.now) out.old at result out.new }
{
    put(out, at, b"\t");
    let b = put_text(back, spoken, false, p, out, at + 1);
    b.at
}

// The lines of a content behind `mark` bytes, each as a part by its role.
pub(crate) fn put_lines(
    back: &[u8; 256],
    sign: bool,
    role: Role,
    mark: usize,
    c: &[u8],
    out: &mut [u8],
    at: usize,
) -> usize
    requires { (length c.now ≤ 10000) × (at ≤ 400000) }
    ensures { (result ≤ at + length c.now + 1) × Puts (tabbed (parts_by back.now sign role (map (drop mark) (lines_in c.now)))) out.old at result out.new }
{
    let mut role = role;
    let mut n = at;
    for line in TextLines::new(c, 0, mark, mark) {
        n = put_part(back, is_spoken(sign, role, line), line, out, n);
        role = next_role(role, line);
    }
    n
}

// A text that runs over lines, behind `front` bytes of the first and `mark` bytes of each later one: a piece a line, the side carried on.
pub(crate) fn put_over(
    back: &[u8; 256],
    sign: bool,
    front: usize,
    mark: usize,
    c: &[u8],
    out: &mut [u8],
    at: usize,
) -> usize
    requires { (length c.now ≤ 10000) × (at ≤ 400000) }
    ensures { (result ≤ at + length c.now) × Puts (over_by back.now sign false (text_pieces front mark (lines_in c.now))) out.old at result out.new }
{
    let mut b = Behind { at, latin: false };
    for line in TextLines::new(c, 0, front, mark) {
        b = put_text(back, sign, b.latin, line, out, b.at);
    }
    b.at
}
