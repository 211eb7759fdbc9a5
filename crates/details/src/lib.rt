// Details broken into their field's lines: each line takes as many bytes as it lawfully can.
#![tactic(auto)]

ghost use Rattle.std.specs.Prelude.{◌≡◌, ◌+◌, ◌-◌, ◌≤◌, ◌<◌, ◌++◌, length};
ghost use lib.Seq.{sets};
ghost use Rattle.base.specs.Calls.{placed};
ghost use Rattle.details.specs.Breaking.{opens};
ghost use Rattle.details.specs.Layouts.{size_for, room_from, Lays};
ghost use Rattle.details.specs.Steps.{barred_by, cut_at, breaks_in, size_by, whole_by, RoomFor};

mod layouts;

use base::bytes::put;
use layouts::{LINE_END, LayoutNumbers};

// Where details stand: in 70; in the 72 of a 202, alone or behind its RPP line.
#[derive(Clone, Copy)]
pub enum DetailsField {
    In70,
    In72,
    BehindRpp,
}

// The room of a field from one of its lines on: the bytes of that line's mark, and those of text that it and the lines behind it hold.
#[derive(Clone, Copy)]
pub struct Room {
    pub mark: usize,
    pub bytes: usize,
}

fn may_open(barred: bool, b: u8) -> bool
    ensures { result ≡ opens (barred_by barred) b }
{
    !barred || (b != b':' && b != b'-')
}

// The last place behind low, up to high, whose byte may open a line.
fn cut(text: &[u8], low: usize, high: usize, barred: bool) -> Option<usize>
    requires { high < length text.now }
    ensures { result ≡ cut_at (opens (barred_by barred)) text.now low high }
{
    for e in (low..high).rev() {
        if may_open(barred, text[e + 1]) {
            return Some(e + 1);
        }
    }
    None
}

// Stays: the loops of `measure` and `put_lines` go from break to break and count no index; a `for` over the lines would ask twice whether the text ends.
// The size of a text whose first line ends behind low.
fn measure(text: &[u8], low: usize, s: LayoutNumbers) -> Option<usize>
    ensures { result ≡ size_by (s.mark + length text.now) s.next (breaks_in s text.now low) }
{
    let mut a = low;
    let mut h = s.first;
    let mut left = s.more;
    let mut size = s.mark;
    while h < text.len() {
        left = left.checked_sub(1)?;
        a = cut(text, a, h, s.barred)?;
        h = a + s.later;
        size += s.next;
    }
    Some(size + text.len())
}

// One part put behind another: the place behind both.
fn put_both(out: &mut [u8], at: usize, one: &[u8], two: &[u8]) -> usize
    requires { at + length (one.now ++ two.now) ≤ length out.old }
    ensures { (result ≡ at + length (one.now ++ two.now)) × (out.new ≡ sets out.old at (one.now ++ two.now)) }
{
    put(out, at, one);
    let n = at + one.len();
    put(out, n, two);
    n + two.len()
}

// The mark, then the text with sep at each break.
fn put_lines(
    text: &[u8],
    low: usize,
    s: LayoutNumbers,
    mark: &[u8],
    sep: &[u8],
    out: &mut [u8],
    at: usize,
)
    requires low_in_bounds { low < length text.now }
    requires room_for { RoomFor mark.now sep.now text.now (breaks_in s text.now low) at (length out.old) }
    ensures { out.new ≡ placed out.old at (whole_by mark.now sep.now text.now (breaks_in s text.now low)) }
{
    put(out, at, mark);
    let mut n = at + mark.len();
    let mut from = 0;
    let mut a = low;
    let mut h = s.first;
    while h < text.len() {
        let e = cut(text, a, h, s.barred).unwrap_or(a);
        n = put_both(out, n, &text[from..e], sep);
        from = e;
        a = e;
        h = e + s.later;
    }
    put(out, n, &text[from..]);
}

// Lines are counted from 0, and behind the last there is no room.
pub fn room_from(into: DetailsField, line: usize) -> Room
    ensures { result ≡ room_from into line }
{
    let s = LayoutNumbers::new(into);
    if line == 0 {
        return Room {
            mark: s.mark,
            bytes: s.first + s.more * s.later,
        };
    }
    let lines = (s.more + 1).saturating_sub(line);
    Room {
        mark: s.next - LINE_END,
        bytes: lines * s.later,
    }
}

// How many bytes the lines of a text come to, whose first `least` bytes are the code; none where it does not fit them.
pub fn size_of(into: DetailsField, least: usize, text: &[u8]) -> Option<usize>
    ensures { result ≡ size_for into least text.now }
{
    let low = least.saturating_sub(1);
    if text.len() <= low {
        return None;
    }
    measure(text, low, LayoutNumbers::new(into))
}

// The lines put into out from `at` on, where they fit: how many bytes these are.
pub fn lay(
    into: DetailsField,
    least: usize,
    text: &[u8],
    out: &mut [u8],
    at: usize,
) -> Option<usize>
    ensures { Lays into least text.now out.old at result out.new }
{
    let n = size_of(into, least, text)?;
    if out.len() < at || out.len() - at < n {
        return None;
    }
    let low = least.saturating_sub(1);
    let s = LayoutNumbers::new(into);
    match into {
        DetailsField::In70 => put_lines(text, low, s, b"", b"\r\n", out, at),
        DetailsField::In72 | DetailsField::BehindRpp => {
            put_lines(text, low, s, b"/NZP/", b"\r\n//", out, at)
        }
    }
    Some(n)
}
