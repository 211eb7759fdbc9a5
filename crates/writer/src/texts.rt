// A text, and a text as a line.
ghost use Rattle.std.specs.Prelude.{false, [], ◌∷◌, ◌++◌, ◌+◌, ◌*◌, ◌≤◌, length};
ghost use Rattle.base.specs.Calls.{text_of};
ghost use Rattle.alphabets.specs.Best.{writing};
ghost use Rattle.writer.specs.Sheet.{stopped_at};
ghost use Rattle.writer.specs.Steps.{Adds, Within, near};

use super::{Halt, Step};
use alphabets::parts::Stop;
use alphabets::put_written;
use base::bytes::put;

// A text as it is written. Its first byte is at o.
pub(crate) fn put_text(sign: bool, o: usize, p: &[u8], out: &mut [u8], at: usize) -> Step
    requires { (length p.now ≤ 10000) × (o ≤ near) × (at ≤ near) }
    ensures { Adds (stopped_at o (writing sign p.now)) false (text_of (writing sign p.now)) out.old at result out.new × Within result (o + length p.now) (at + 4 * length p.now) }
{
    match put_written(sign, p, out, at) {
        Ok(n) => Ok(at + n),
        Err(Stop::At(k)) => Err(Halt::Stuck(o + k)),
        // never: a text of a sheet has at most 10,000 bytes, as this function asks
        Err(Stop::Long) => Err(Halt::Stuck(o)),
    }
}

// A text and CR LF.
pub(crate) fn put_line(sign: bool, o: usize, p: &[u8], out: &mut [u8], at: usize) -> Step
    requires { (length p.now ≤ 10000) × (o ≤ near) × (at ≤ near) }
    ensures { Adds (stopped_at o (writing sign p.now)) false (text_of (writing sign p.now) ++ 13 ∷ 10 ∷ []) out.old at result out.new × Within result (o + length p.now) (at + 4 * length p.now + 2) }
{
    let n = put_text(sign, o, p, out, at)?;
    put(out, n, b"\r\n");
    Ok(n + 2)
}
