// The records of a sheet, one by one.
ghost use Rattle.std.specs.Prelude.{◌≡◌};

use base::marks::mark_at;

// The records from a place on, each by where it starts, and without its LF.
#[derive(Clone, Copy)]
pub(crate) struct Walk<'a> {
    sheet: &'a [u8],
    at: usize,
}

impl<'a> Walk<'a> {
    pub(crate) fn new(sheet: &'a [u8], at: usize) -> Walk<'a>
        ensures { (result.sheet.now ≡ sheet.now) × (result.at ≡ at) }
    {
        Walk { sheet, at }
    }
}

impl<'a> Iterator for Walk<'a> {
    ghost use Rattle.writer.specs.Steps.{Walks, walk_left};

    type Item = (usize, &'a [u8]);

    ghost next_gives = { Walks };

    ghost remaining = { walk_left };

    fn next(&mut self) -> Option<(usize, &'a [u8])> {
        let sheet = self.sheet;
        let start = self.at;
        if sheet.len() <= start {
            return None;
        }
        let end = mark_at(b'\n', sheet, start);
        self.at = end + 1;
        Some((start, &sheet[start..end]))
    }
}
