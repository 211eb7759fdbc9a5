// The pieces of a text, cut at a mark: the records of a sheet, the tag and the parts of a record.
ghost use Rattle.std.specs.Prelude.{◌≡◌};
ghost use Rattle.base.specs.Bytes.{begins};
ghost use Rattle.types.specs.Sign.{first_line};
ghost use Rattle.fields.specs.Field.{field};
ghost use Rattle.records.specs.Record.{record_of};
ghost use Rattle.records.specs.Found.{pieces_at, pieces_left};

use base::marks::mark_at;

// The pieces from a place on, none where that is past the end.
#[derive(Clone, Copy)]
pub(crate) struct Pieces<'a> {
    mark: u8,
    text: &'a [u8],
    at: usize,
}

impl<'a> Pieces<'a> {
    pub(crate) fn new(mark: u8, text: &'a [u8], at: usize) -> Pieces<'a>
        ensures { pieces_left result ≡ pieces_at mark text.now at }
    {
        Pieces { mark, text, at }
    }

    // The first piece begins with that byte. It is told by the byte alone, however long the piece.
    pub(crate) fn begins(self, b: u8) -> bool
        ensures { result ≡ begins b (first_line (pieces_left self.entry)) }
    {
        self.at < self.text.len() && self.text[self.at] == b && b != self.mark
    }
}

impl<'a> Iterator for Pieces<'a> {
    ghost use Rattle.std.specs.Iterator.{YieldsFirstRef, item_count};
    ghost use Rattle.records.specs.Found.{pieces_left};

    type Item = &'a [u8];

    ghost next_gives = { YieldsFirstRef pieces_left };

    ghost remaining = { item_count pieces_left };

    fn next(&mut self) -> Option<&'a [u8]> {
        let text = self.text;
        let start = self.at;
        if text.len() < start {
            return None;
        }
        let end = mark_at(self.mark, text, start);
        self.at = end + 1;
        Some(&text[start..end])
    }
}

// The tag of a record, and its parts.
pub(crate) fn parted(l: &[u8]) -> (&[u8], Pieces<'_>)
    ensures { record_of l.now ≡ field result.0.now (pieces_left result.1) }
{
    let mut parts = Pieces::new(b'\t', l, 0);
    (parts.next().unwrap(), parts)
}
