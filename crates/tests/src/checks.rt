// A message through the calls: the check with its list, the parts of the places, the kopecks and the date, a line each; and its sheet,
// there and back. The line of a message has the type, the units of room for its list and the bytes of the message.
ghost use Rattle.std.specs.Prelude.{◌<◌, IfSome};

use crate::back::tell_sheet;
use crate::heads::{number_of, number_within};
use crate::rooms::lent;
use crate::tally::{Kind, Taken};
use crate::tell::{tell, tell_refusal};
use base::Refusal;
use message::check::check;
use message::content::span;
use message::paid::{date, kopecks};
use stored::{body_at, cut, line_at};
use streams::{Output, write_output};
use types::forms::form_of;
use types::{Form, PLACES};

// The words of the line, by the spaces in front.
const TYPE: usize = 1;

const LENT: usize = 2;

const BYTES: usize = 3;

// The longest list that is lent.
const ROOM: usize = 64;

// What stands in the list before the call.
const BLANK: u32 = 77;

// The numbers of the list that a field has.
const NUMBERS: usize = 3;

// A space in front of all but the first.
fn part_from(rt: &impl Output, k: usize) {
    if k > 0 {
        write_output(rt, b" ");
    }
}

// A number of the list. Behind those of the fields it has to be as it was.
fn tell_number(rt: &impl Output, k: usize, n: u32, fields: usize) {
    if k / NUMBERS < fields {
        part_from(rt, k);
        tell(rt, n as u64, b"");
        return;
    }
    if n != BLANK {
        write_output(rt, b"\ttouched");
    }
}

fn tell_numbers(rt: &impl Output, list: &[u32; ROOM], fields: usize) {
    for (k, n) in list.iter().enumerate() {
        tell_number(rt, k, *n, fields);
    }
}

fn tell_check(rt: &impl Output, form: Form, room: usize, m: &[u8]) {
    let mut list = [BLANK; ROOM];
    match check(form, m, lent(&mut list, room)) {
        Ok(a) => {
            tell(rt, a.fields as u64, b"\t");
            tell(rt, a.present as u64, b"\t");
            tell_numbers(rt, &list, a.fields);
        }
        Err(Refusal { number, place }) => {
            tell_refusal(rt, number, place);
            tell_numbers(rt, &list, 0);
        }
    }
}

fn tell_part(rt: &impl Output, form: Form, m: &[u8], place: usize) {
    part_from(rt, place);
    match span(form, m, place) {
        Some(s) => {
            tell(rt, s.start as u64, b"-");
            tell(rt, s.end as u64, b"");
        }
        None => write_output(rt, b"."),
    }
}

// The places of the longest type, and the one behind.
fn tell_parts(rt: &impl Output, form: Form, m: &[u8]) {
    for place in 0..=PLACES {
        tell_part(rt, form, m, place);
    }
}

fn tell_kopecks(rt: &impl Output, form: Form, m: &[u8]) {
    match kopecks(form, m) {
        Ok(n) => tell(rt, n, b""),
        Err(Refusal { number, place }) => tell_refusal(rt, number, place),
    }
}

fn tell_date(rt: &impl Output, form: Form, m: &[u8]) {
    match date(form, m) {
        Ok(d) => {
            tell(rt, d.year as u64, b" ");
            tell(rt, d.month as u64, b" ");
            tell(rt, d.day as u64, b"");
        }
        Err(Refusal { number, place }) => tell_refusal(rt, number, place),
    }
}

fn answer(rt: &impl Output, form: Form, room: usize, m: &[u8]) {
    tell_check(rt, form, room, m);
    write_output(rt, b"\nparts\t");
    tell_parts(rt, form, m);
    write_output(rt, b"\nkopecks\t");
    tell_kopecks(rt, form, m);
    write_output(rt, b"\ndate\t");
    tell_date(rt, form, m);
    write_output(rt, b"\nsheet\t");
    tell_sheet(rt, form, m);
    write_output(rt, b"\n");
}

pub(crate) fn take_message(rt: &impl Output, list: &[u8], at: usize) -> Option<Taken>
    ensures { IfSome result (λ taken. at < taken.next) }
{
    let head = line_at(list, at);
    let kind = u32::try_from(number_of(head, TYPE)?).ok()?;
    let room = number_within(head, LENT, ROOM)?;
    let body = body_at(list, at, BYTES)?;
    let next = body.next?;
    answer(rt, form_of(kind), room, cut(list, body.start, body.size?));
    Some(Taken {
        kind: Kind::Message,
        next,
    })
}
