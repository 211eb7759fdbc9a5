// Why a sheet was refused: by a byte of its own, or for the sake of the message that it would be.
use crate::lines::{Kind, Source, has_cr_lf, next_field};
use crate::missing::put_missing;
use crate::page::Page;
use crate::question::Question;
use crate::show::{put_first, put_line, put_record, put_spot};
use crate::texts::Text;
use base::Refusal;
use base::bytes::{front, is_same, past};
use message::verdict::judge;
use records::sheets::judge_sheet;
use stored::up_to;
use types::Form;
use writer::draft::draft;
use writer::holder::record_at;

fn sheet_of(text: &[u8]) -> Source<'_> {
    Source {
        kind: Kind::Sheet,
        text,
    }
}

// Whether the record that starts there has the tag of the field with that colon.
fn is_own(sheet: &[u8], start: usize, m: &[u8], colon: usize) -> bool {
    let tag = up_to(b'\t', past(sheet, start));
    is_same(tag, up_to(b':', past(past(m, colon), 1)))
}

// The colon of a field that is made of a record of its own: that one, or, where details run on there, the next.
fn own_place(sheet: &[u8], m: &[u8], colon: usize) -> usize {
    let Some(i) = record_at(sheet, colon) else {
        return colon;
    };
    if is_own(sheet, i, m, colon) {
        return colon;
    }
    next_field(m, colon)
}

// What is missing, and the line of the sheet before which it belongs.
fn put_gap(page: &mut Page, form: Form, place: usize, m: &[u8], sheet: &[u8]) {
    if m.len() <= place {
        return;
    }
    put_missing(page, form, m, place);
    match record_at(sheet, own_place(sheet, m, place)) {
        Some(i) => put_line(page, Text::Before, sheet_of(sheet), i),
        None => page.put_remark(Text::AtEnd),
    }
}

// The record that the byte of the message came from.
fn put_holder(page: &mut Page, place: usize, sheet: &[u8]) {
    let Some(i) = record_at(sheet, place) else {
        return;
    };
    put_record(page, sheet, i);
    put_line(page, Text::Line, sheet_of(sheet), i);
}

// The refusal of the sheet's message, where it is the one that was asked about.
fn put_own(page: &mut Page, number: usize, m: &[u8], sheet: &[u8]) {
    let j = judge_sheet(sheet);
    let form = j.form;
    let Err(Refusal { number: own, place }) = judge(form, m) else {
        return;
    };
    if own as usize != number {
        return;
    }
    if number == 7 {
        put_gap(page, form, place, m, sheet);
    } else {
        put_holder(page, place, sheet);
    }
}

// How long the message would be, where 1 was asked about and 17 says that there was not room enough.
fn put_length(page: &mut Page, number: usize, stop: u32, size: usize) {
    if number == 1 && stop == 17 {
        page.put_count(Text::Length, size);
    }
}

// The message drafted, in as much room as a message may have.
fn put_built(page: &mut Page, number: usize, sheet: &[u8]) {
    let mut m = [0u8; 10000];
    match draft(sheet, &mut m) {
        Ok(n) => put_own(page, number, front(&m, n), sheet),
        Err(
            Refusal {
                number: stop,
                place,
            },
        ) => put_length(page, number, stop, place),
    }
}

fn put_where(page: &mut Page, q: Question) {
    match q.number {
        15 | 19 => put_spot(page, sheet_of(q.input), q.place),
        18 => put_first(page, q.input),
        1 | 5..=13 if q.place == 0 => put_built(page, q.number, q.input),
        _ => {}
    }
}

pub(crate) fn put_sheet(page: &mut Page, q: Question) {
    put_where(page, q);
    if has_cr_lf(q.input) {
        page.put_remark(Text::CrLf);
    }
}
