// The lines of a content, and what of each is text.
ghost use Rattle.std.specs.Prelude.{◌≡◌, ◌≤◌, ◌+◌, ◌-◌, min};
ghost use Rattle.roles.specs.Found.{text_left, lines_left, kept_lines};

use base::marks::mark_at;
use fields::lines::next_line;

// Of the lines from a place on, what stands behind `front` bytes of the first and `mark` bytes of each later one.
#[derive(Clone, Copy)]
pub struct TextLines<'a> {
    content: &'a [u8],
    at: usize,
    front: usize,
    mark: usize,
}

impl<'a> TextLines<'a> {
    pub fn new(content: &'a [u8], at: usize, front: usize, mark: usize) -> TextLines<'a>
        ensures lines { lines_left result ≡ text_left content.now at front mark }
        ensures kept { result ≡ kept_lines content.entry at front mark }
    {
        TextLines {
            content,
            at,
            front,
            mark,
        }
    }
}

impl<'a> Iterator for TextLines<'a> {
    ghost use Rattle.std.specs.Iterator.{YieldsFirstRef, item_count};
    ghost use Rattle.roles.specs.Found.{lines_left};

    type Item = &'a [u8];

    ghost next_gives = { YieldsFirstRef lines_left };

    ghost remaining = { item_count lines_left };

    fn next(&mut self) -> Option<&'a [u8]> {
        let content = self.content;
        let start = self.at;
        if content.len() < start {
            return None;
        }
        let end = mark_at(b'\r', content, start);
        let begin = cut_at(start, self.front, end);
        self.front = self.mark;
        self.at = if end < content.len() {
            next_line(end, content.len())
        } else {
            end + 1
        };
        Some(&content[begin..end])
    }
}

// Behind the first d bytes of a line, or its end.
fn cut_at(at: usize, d: usize, e: usize) -> usize
    requires { at ≤ e }
    ensures { result ≡ at + min d (e - at) }
{
    at + d.min(e - at)
}
