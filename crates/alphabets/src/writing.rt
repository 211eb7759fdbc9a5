// A desk text written: measured first, then put into the room. A turn takes a Russian run and the Latin group behind it.
ghost use Rattle.std.specs.Prelude.{◌≡◌, [], ◌∷◌, ◌++◌, ◌+◌, ◌≤◌, length, false};
ghost use lib.Seq.{sets};
ghost use Rattle.base.specs.Calls.{placed};
ghost use Rattle.alphabets.specs.Best.{best, nowhere, bad, writes};
ghost use Rattle.alphabets.specs.Parts.{extent_of};
ghost use Rattle.alphabets.specs.Steps.{grid_table, group, LatinRun};

use super::grid::GRID;
use super::parts::{Extent, Stop};
use super::runs::{run_of, translate, value};

// The table, made once a call and lent down.
#[derive(Clone, Copy)]
pub(crate) struct Grid {
    values: [u8; 256],
    ghost made: { values ≡ grid_table },
}

// A stretch of characters that the Latin side takes, from the front: how far its last Latin letter goes, and how far it goes.
#[derive(Clone, Copy)]
struct Stretch {
    last: usize,
    end: usize,
}

impl Grid {
    pub(crate) fn new() -> Grid {
        Grid { values: GRID }
    }

    // The shared characters behind the last letter of a stretch are looked through twice at most, so the whole is linear.
    fn stretch(&self, desk: &[u8]) -> Stretch
        ensures { (result.last ≡ group desk.now) × LatinRun desk.now result.end }
    {
        let mut last = 0;
        for (i, x) in desk.iter().enumerate() {
            let c = value(&self.values, *x);
            if c == 1 {
                last = i + 1;
            } else if c == 0 || c != *x {
                return Stretch { last, end: i };
            }
        }
        let end = desk.len();
        Stretch { last, end }
    }

    pub(crate) fn measure(&self, desk: &[u8]) -> Extent
        requires { length desk.now ≤ 10000 }
        ensures { result ≡ extent_of (writes desk.now) }
    {
        let mut marks: usize = 0;
        let mut rest = desk;
        loop {
            let (_, behind) = rest.split_at(run_of(&self.values, 1, rest));
            let [x, more @ ..] = behind else {
                return Ok(desk.len() + marks);
            };
            if value(&self.values, *x) == 0 {
                return Err(Stop::At(desk.len() - more.len() - 1));
            }
            marks += 2;
            rest = &more[self.stretch(more).end..];
        }
    }

    pub(crate) fn fill(&self, desk: &[u8], out: &mut [u8], at: usize)
        requires { (bad desk.now ≡ nowhere) × (at + length (best false desk.now) ≤ length out.old) }
        ensures { out.new ≡ sets out.old at (best false desk.now) }
    {
        let mut n = at;
        let mut rest = desk;
        loop {
            let run = translate(&self.values, rest, out, n);
            let (_, behind) = rest.split_at(run);
            n += run;
            if behind.is_empty() {
                return;
            }
            let (group, more) = behind.split_at(self.stretch(behind).last);
            quote(group, out, n);
            n += group.len() + 2;
            rest = more;
        }
    }
}

// A part put into the room from n on; single letters among Russian ones are frequent.
fn put_part(part: &[u8], out: &mut [u8], n: usize)
    requires { n + length part.now ≤ length out.old }
    ensures { out.new ≡ placed out.old n part.now }
{
    if let [x] = part {
        out[n] = *x;
        return;
    }
    base::bytes::put(out, n, part);
}

// A part put between apostrophes into the room from n on.
fn quote(part: &[u8], out: &mut [u8], n: usize)
    requires { n + (length part.now + 2) ≤ length out.old }
    ensures { out.new ≡ sets out.old n (39 ∷ (part.now ++ 39 ∷ [])) }
{
    out[n] = b'\'';
    put_part(part, out, n + 1);
    out[n + 1 + part.len()] = b'\'';
}
