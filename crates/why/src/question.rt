// A question: what its first line says, and where its input stands.
ghost use Rattle.std.specs.Prelude.{◌<◌, IfSome};

use crate::lines::Kind;
use crate::page::Language;
use base::bytes::past;
use stored::{behind, cut, line_at, number, word};

// About a sheet or a message: the number and the place of the refusal; the input; the place behind, where another question may stand.
#[derive(Clone, Copy)]
pub(crate) struct Question<'a> {
    pub(crate) kind: Kind,
    pub(crate) number: usize,
    pub(crate) place: usize,
    pub(crate) input: &'a [u8],
    pub(crate) next: usize,
}

// What the program that refused takes.
fn kind_of(program: &[u8]) -> Option<Kind> {
    match program {
        b"tosheet" => Some(Kind::Message),
        b"tomessage" => Some(Kind::Sheet),
        _ => None,
    }
}

// The language that the line there asks for.
pub(crate) fn language_of(all: &[u8], at: usize) -> Option<Language> {
    match word(b'\t', line_at(all, at), 3) {
        b"" => Some(Language::English),
        b"ru" => Some(Language::Russian),
        _ => None,
    }
}

// The question whose first line starts there: program, number, place, language and bytes, with tabs between. The input goes up to the
// end, or has as many bytes as the line says and an LF behind.
pub(crate) fn question_at(all: &[u8], at: usize) -> Option<Question<'_>>
    ensures { IfSome result (λ q. at < q.next) }
{
    let line = line_at(all, at);
    let start = behind(all, at, line.len())?;
    let kind = kind_of(word(b'\t', line, 0))?;
    let refusal = number(word(b'\t', line, 1))?;
    let place = number(word(b'\t', line, 2))?;
    language_of(all, at)?;
    let bytes = word(b'\t', line, 4);
    if bytes.is_empty() {
        return Some(Question {
            kind,
            number: refusal,
            place,
            input: past(all, start),
            next: all.len(),
        });
    }
    let size = number(bytes)?;
    let next = behind(all, start, size)?;
    Some(Question {
        kind,
        number: refusal,
        place,
        input: cut(all, start, size),
        next,
    })
}
