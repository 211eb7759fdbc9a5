// Why a message was refused.
use crate::lines::{Kind, Source, has_bare_lf};
use crate::missing::put_missing;
use crate::page::Page;
use crate::question::Question;
use crate::show::{put_first, put_marked, put_spot};
use crate::texts::Text;
use base::bytes::{front, past};
use stored::{line_at, number};
use types::Form;
use types::forms::form_of;

// The form that the first line names by three digits.
fn form_in(input: &[u8]) -> Option<Form> {
    let line = line_at(input, 0);
    match number(line) {
        Some(n) if line.len() == 3 && n <= 999 => Some(form_of(n as u32)),
        _ => None,
    }
}

// The message behind three digits and LF; without these there is none.
fn message_in(input: &[u8]) -> Source<'_> {
    Source {
        kind: Kind::Message,
        text: match form_in(input) {
            Some(_) => past(input, 4),
            None => front(input, 0),
        },
    }
}

// The end that is not as it must be: the first line, or else the last.
fn put_edge(page: &mut Page, message: Source) {
    let m = message.text;
    if m.is_empty() {
        return;
    }
    if m.starts_with(b"{4:\r\n") {
        put_marked(page, Text::Line, message, m.len() - 1);
    } else {
        put_marked(page, Text::Line, message, 0);
    }
}

// What is missing, and the line before which it belongs.
fn put_gap(page: &mut Page, form: Form, message: Source, place: usize) {
    let Some(b) = message.text.get(place) else {
        return;
    };
    put_missing(page, form, message.text, place);
    if *b == b':' {
        put_marked(page, Text::Before, message, place);
    } else {
        page.put_remark(Text::AtEnd);
    }
}

fn put_where(page: &mut Page, q: Question, message: Source) {
    match q.number {
        2 => put_edge(page, message),
        3..=6 | 8..=14 | 21 => put_spot(page, message, q.place),
        7 => put_gap(
            page,
            form_in(q.input).unwrap_or(Form::Other),
            message,
            q.place,
        ),
        18 => put_first(page, q.input),
        _ => {}
    }
}

pub(crate) fn put_message(page: &mut Page, q: Question) {
    let message = message_in(q.input);
    put_where(page, q, message);
    if has_bare_lf(message.text) {
        page.put_remark(Text::BareLf);
    }
}
