// The lines of a message or of a sheet.
ghost use Rattle.std.specs.Prelude.{◌≤◌};

use base::bytes::{front, past};
use stored::line_at;

#[derive(Clone, Copy)]
pub(crate) enum Kind {
    Sheet,
    Message,
}

// A sheet or a message, or what was given for one.
#[derive(Clone, Copy)]
pub(crate) struct Source<'a> {
    pub(crate) kind: Kind,
    pub(crate) text: &'a [u8],
}

// The line from there on, up to its LF, and of a message up to its CR LF.
pub(crate) fn line_from<'a>(source: Source<'a>, start: usize) -> &'a [u8] {
    let line = line_at(source.text, start);
    match source.kind {
        Kind::Sheet => line,
        Kind::Message => line.strip_suffix(b"\r").unwrap_or(line),
    }
}

// The start of the line that holds the place.
pub(crate) fn line_start(s: &[u8], place: usize) -> usize
    ensures { result ≤ place }
{
    match front(s, place).iter().rposition(|b| *b == b'\n') {
        Some(at) => at + 1,
        None => 0,
    }
}

// The start of the last line up to the place that begins with `:`, or 0.
pub(crate) fn field_start(s: &[u8], place: usize) -> usize {
    match front(s, place.saturating_add(1))
        .array_windows()
        .rposition(|w| w == b"\n:")
    {
        Some(at) => at + 1,
        None => 0,
    }
}

// The start of the next line behind the place that begins with `:`, or the end.
pub(crate) fn next_field(s: &[u8], place: usize) -> usize {
    match past(s, place).array_windows().position(|w| w == b"\n:") {
        Some(at) => place + at + 1,
        None => s.len(),
    }
}

// Which line it is, from 1 on, that starts at this place.
pub(crate) fn line_number(s: &[u8], start: usize) -> usize {
    front(s, start).iter().filter(|b| **b == b'\n').count() + 1
}

// Some line ends in CR LF.
pub(crate) fn has_cr_lf(s: &[u8]) -> bool {
    s.array_windows().any(|w| w == b"\r\n")
}

// Some line ends in LF alone. An LF at the front ends none.
pub(crate) fn has_bare_lf(s: &[u8]) -> bool {
    s.array_windows::<2>()
        .any(|[a, b]| *a != b'\r' && *b == b'\n')
}
