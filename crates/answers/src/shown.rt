// An answer shown: a text, or a refusal as a line.
ghost use Rattle.std.specs.Prelude.{◌≡◌, ◌≤◌, length, drop};
ghost use Rattle.answers.specs.Line.{decimal, refusal_line, Shows};
ghost use Rattle.answers.specs.Steps.{shown_of, Before};

use base::bytes::{front, past, put};
use base::{Outcome, Refusal};

const ZERO: usize = b'0' as usize;

// The digits of n put in front of a place, the last first; answers where they begin.
fn put_digits(out: &mut [u8], end: usize, n: usize) -> usize
    requires { (20 ≤ end) × (end ≤ length out.old) }
    ensures { Before (decimal n) out.old end result out.new }
{
    let mut at = end;
    let mut left = n;
    while 10 <= left {
        at -= 1;
        out[at] = (ZERO + left % 10) as u8;
        left /= 10;
    }
    at -= 1;
    out[at] = (ZERO + left) as u8;
    at
}

// The line of a refusal at the end of the room; answers where it begins.
fn lay_line(number: u32, place: usize, line: &mut [u8]) -> usize
    requires { length line.old ≡ 50 }
    ensures { drop result line.new ≡ refusal_line number place }
{
    line[49] = b'\n';
    let p = put_digits(line, 49, place);
    line[p - 1] = b'\t';
    let n = put_digits(line, p - 1, number as usize);
    put(line, n - 8, b"refused\t");
    n - 8
}

// A text put into the room lent, where it fits.
fn put_whole(t: &[u8], out: &mut [u8]) -> Outcome
    ensures { Shows t.now out.old result out.new }
{
    if out.len() < t.len() {
        return Err(Refusal {
            number: 17,
            place: t.len(),
        });
    }
    put(out, 0, t);
    Ok(t.len())
}

// What a call answered and left in m, shown in the room lent.
pub(crate) fn put_shown(a: Outcome, m: &[u8], out: &mut [u8]) -> Outcome
    ensures { Shows (shown_of a m.now) out.old result out.new }
{
    match a {
        Ok(n) => put_whole(front(m, n), out),
        Err(Refusal { number, place }) => {
            let mut line = [0u8; 50];
            let at = lay_line(number, place, &mut line);
            put_whole(past(&line, at), out)
        }
    }
}
