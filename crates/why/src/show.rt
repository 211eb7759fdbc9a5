// The field and the line that hold a place, and the mark under it.
ghost use Rattle.std.specs.Prelude.{◌<◌};

use crate::lines::{Kind, Source, field_start, line_from, line_number, line_start};
use crate::page::Page;
use crate::texts::Text;
use base::bytes::front;
use stored::{line_at, up_to};

// The one control byte above the space.
const DELETE: u8 = 127;

// A byte that goes to the screen as it is: no control byte but the tab of a sheet.
fn is_shown(kind: Kind, b: u8) -> bool {
    match b {
        b'\t' => matches!(kind, Kind::Sheet),
        DELETE => false,
        _ => b' ' <= b,
    }
}

fn hex_digit(n: u8) -> u8
    requires { n < 16 }
{
    if n < 10 { b'0' + n } else { b'A' + (n - 10) }
}

// A control byte as its value in hexadecimal digits, between angles.
fn put_bytes(page: &mut Page, kind: Kind, text: &[u8]) {
    for b in text {
        if is_shown(kind, *b) {
            page.add(&[*b]);
        } else {
            page.add(&[b'<', hex_digit(*b / 16), hex_digit(*b % 16), b'>']);
        }
    }
}

// As wide as the bytes are shown.
fn put_blanks(page: &mut Page, kind: Kind, text: &[u8]) {
    for b in text {
        if !is_shown(kind, *b) {
            page.add(b"    ");
        } else if *b == b'\t' {
            page.add(b"\t");
        } else {
            page.add(b" ");
        }
    }
}

// The tag of a field, three bytes at most.
fn put_tag(page: &mut Page, tag: &[u8]) {
    page.put_label(Text::Field);
    put_bytes(page, Kind::Message, front(tag, 3));
    page.add(b"\n");
}

// The tag of the record that starts there.
pub(crate) fn put_record(page: &mut Page, sheet: &[u8], start: usize) {
    put_tag(page, up_to(b'\t', line_at(sheet, start)));
}

// Of a message nothing where no field has begun.
fn put_field(page: &mut Page, source: Source, place: usize) {
    let s = source.text;
    match source.kind {
        Kind::Sheet => put_record(page, s, line_start(s, place)),
        Kind::Message => {
            if let Some((b':', line)) = line_from(source, field_start(s, place)).split_first() {
                put_tag(page, up_to(b':', line));
            }
        }
    }
}

// The line that starts there, with its number behind a word.
pub(crate) fn put_line(page: &mut Page, word: Text, source: Source, start: usize) {
    page.put_count(word, line_number(source.text, start));
    put_bytes(page, source.kind, line_from(source, start));
    page.add(b"\n");
}

// The mark of a place past the line's last byte stands right behind that byte.
pub(crate) fn put_marked(page: &mut Page, word: Text, source: Source, place: usize) {
    let start = line_start(source.text, place);
    put_line(page, word, source, start);
    put_blanks(
        page,
        source.kind,
        front(line_from(source, start), place - start),
    );
    page.add(b"^\n");
}

// Nothing where the place is no byte of the sheet or message.
pub(crate) fn put_spot(page: &mut Page, source: Source, place: usize) {
    if place < source.text.len() {
        put_field(page, source, place);
        put_marked(page, Text::Line, source, place);
    }
}

// The first line, which names the type.
pub(crate) fn put_first(page: &mut Page, input: &[u8]) {
    if !input.is_empty() {
        let source = Source {
            kind: Kind::Sheet,
            text: input,
        };
        put_line(page, Text::Line, source, 0);
    }
}
