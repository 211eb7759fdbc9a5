#![tactic(auto)]
// Explains refusals to a clerk. Standard input is a line with the program that refused, the number and the place, then all that the program
// was given. The line may go on with `ru`, for Russian, and with how many bytes of input follow: behind those and an LF another question may
// stand. What comes out is what the number means, what to do and, where it can be told, the field and the line that are at fault.
ghost use Rattle.std.specs.Prelude.{◌<◌, length, IfSome};

mod english;
mod lines;
mod messages;
mod missing;
mod page;
mod question;
mod russian;
mod sheet;
mod show;
mod texts;

use base::bytes::front;
use lines::Kind;
use messages::put_message;
use page::{Language, Page};
use question::{Question, language_of, question_at};
use sheet::put_sheet;
use streams::{Output, read_input, write_output};
use texts::Text;

fn put_answer(page: &mut Page, q: Question) {
    page.put_refusal(q.number);
    match q.kind {
        Kind::Sheet => put_sheet(page, q),
        Kind::Message => put_message(page, q),
    }
}

// The question there answered; the place of the next, where one follows.
fn put_next(page: &mut Page, all: &[u8], at: usize) -> Option<usize>
    ensures { IfSome result (λ next. (at < next) × (next < length all.now)) }
{
    let Some(q) = question_at(all, at) else {
        page.put_remark(Text::Usage);
        return None;
    };
    put_answer(page, q);
    if q.next < all.len() {
        Some(q.next)
    } else {
        None
    }
}

// An empty line stands between two answers.
fn answer_at(rt: &impl Output, all: &[u8], at: usize) -> Option<usize>
    ensures { IfSome result (λ next. (at < next) × (next < length all.now)) }
{
    let mut page = Page::new(language_of(all, at).unwrap_or(Language::English));
    if at > 0 {
        page.add(b"\n");
    }
    let next = put_next(&mut page, all, at);
    write_output(rt, page.said());
    next
}

// One question at least, then each that stands behind another.
fn answer_all(rt: &impl Output, all: &[u8]) {
    let mut at = 0;
    while let Some(next) = answer_at(rt, all, at) {
        at = next;
    }
}

// Room for a list of questions, or for one with an input that is too long.
fn input_room() -> [u8; 65536] {
    [0u8; 65536]
}

// Nothing is written where the input can't be read.
fn main(rt: HostRuntime) {
    let mut all = input_room();
    let Ok(n) = read_input(&rt, &mut all) else {
        return;
    };
    answer_all(&rt, front(&all, n));
}
