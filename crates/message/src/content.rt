// The content of a place, by itself and as where it stands.
ghost use Rattle.std.specs.Prelude.{◌≡◌};
ghost use Rattle.message.specs.Calls.{span_of, part_of, content_of, Inside};

use super::Span;
use super::verdict::judged;
use types::Form;

// Where the content of a place stands in a message; nowhere where the message is refused.
pub fn span(form: Form, m: &[u8], place: usize) -> Option<Span>
    ensures { result ≡ span_of form m.now place }
{
    let Ok(f) = judged(form, m) else {
        return None;
    };
    f.part_of(place)
}

// That part of the message; empty where there is none.
pub(crate) fn cut(m: &[u8], s: Option<Span>) -> &[u8]
    requires { Inside m.now s }
    ensures { result.now ≡ part_of m.now s }
{
    match s {
        Some(s) => &m[s.start..s.end],
        None => &m[..0],
    }
}

// The content of a place as the caller's own part of the message; empty where there is none.
pub fn content(form: Form, m: &[u8], place: usize) -> &[u8]
    ensures { result.now ≡ content_of form m.now place }
{
    cut(m, span(form, m, place))
}
