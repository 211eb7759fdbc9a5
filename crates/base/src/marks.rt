// Where a mark stands in a text: the CR of a line, the LF of a record, the tab of a part.
ghost use Rattle.std.specs.Prelude.{◌≡◌, ◌+◌, drop};
ghost use Rattle.base.specs.Bytes.{count_up_to};

use crate::bytes::search_from;

// Where the first c from at on stands, or behind the last byte. Sixteen bytes and one byte at a time.
pub fn mark_at(c: u8, s: &[u8], at: usize) -> usize
    ensures { result ≡ at + count_up_to c (drop at s.now) }
{
    if s.len() < at {
        return at;
    }
    search_from(16, &|x| x == c, s, at)
}
