// A bank text as details: the lines that it makes behind a VO code in 70 and in the 72 of a 202, and the room left; where 70 can't hold it, how it
// runs on into the 72 of a 103; and why lines break where they do.
ghost use Rattle.std.specs.Prelude.{◌≤◌, length};

use crate::words::{tell_bytes, tell_count, tell_number, tell_text};
use alphabets::write_text;
use base::bytes::{front, past, put};
use details::{DetailsField, lay, room_from, size_of};
use runon::{Run, run_on};
use stored::up_to;
use streams::{Output, write_output};

// Code and texts that run on may come to so many bytes.
const MOST: usize = 210;

// A text as a clerk types it, measured with the sign or without.
#[derive(Clone, Copy)]
pub(crate) struct Desk<'a> {
    pub(crate) sign: bool,
    pub(crate) text: &'a [u8],
}

// The code in front of details; zeros stand for the clerk's own digits.
fn code_of(sign: bool) -> &'static [u8]
    ensures { length result.now ≤ 11 }
{
    if sign { b"'(VO00000)'" } else { b"(VO00000)" }
}

// The last of the lines laid: which one, counted from 0, and its bytes, the mark counted.
#[derive(Clone, Copy)]
struct Last {
    line: usize,
    bytes: usize,
}

// Each line behind its length.
fn tell_lines(rt: &impl Output, laid: &[u8]) -> Last {
    let mut last = Last { line: 0, bytes: 0 };
    for (line, ended) in laid.split_inclusive(|b| *b == b'\n').enumerate() {
        let bytes = up_to(b'\r', up_to(b'\n', ended));
        tell_number(rt, bytes.len());
        tell_text(rt, bytes);
        last = Last {
            line,
            bytes: bytes.len(),
        };
    }
    last
}

// The lines of a details field, where the text fits them. Nothing has room for more than 250 bytes.
fn tell_laid(rt: &impl Output, into: DetailsField, least: usize, text: &[u8]) -> Last {
    let mut out = [0u8; 250];
    let n = lay(into, least, text, &mut out, 0).unwrap_or(0);
    tell_lines(rt, front(&out, n))
}

// What is left of the last line, and of the lines behind it.
fn tell_left(rt: &impl Output, into: DetailsField, last: Last) {
    let room = room_from(into, last.line);
    write_output(rt, b"it fits, with ");
    let used = last.bytes.saturating_sub(room.mark);
    tell_bytes(rt, room.bytes.saturating_sub(used));
    write_output(rt, b" left\n");
}

fn tell_long(rt: &impl Output, size: usize, most: usize) {
    write_output(rt, b"it does not fit: code and text have ");
    tell_bytes(rt, size);
    write_output(rt, b", ");
    tell_number(rt, size.saturating_sub(most));
    write_output(rt, b" more than the lines hold\n");
}

// By its length it would fit.
fn tell_breaks(rt: &impl Output, size: usize, most: usize) {
    write_output(rt, b"only its breaks do not fit: code and text have ");
    tell_bytes(rt, size);
    write_output(rt, b" and the lines hold ");
    tell_number(rt, most);
    write_output(
        rt,
        b", but a - or : stands where a later line would begin\n",
    );
}

fn tell_unfit(rt: &impl Output, into: DetailsField, size: usize) {
    let room = room_from(into, 0);
    if room.bytes < size {
        tell_long(rt, size, room.bytes);
        return;
    }
    tell_breaks(rt, size, room.bytes);
}

fn tell_fit(rt: &impl Output, into: DetailsField, least: usize, text: &[u8], last: Last) {
    match size_of(into, least, text) {
        Some(_) => tell_left(rt, into, last),
        None => tell_unfit(rt, into, text.len()),
    }
}

// The lines, and whether the text fits them.
fn tell_field(rt: &impl Output, into: DetailsField, least: usize, text: &[u8]) -> Last {
    let last = tell_laid(rt, into, least, text);
    tell_fit(rt, into, least, text, last);
    last
}

// Behind an RPP line the lines are the same, where the text fits. Answers whether lines were broken, if at all then in 72, whose first one is shorter.
fn tell_fields(rt: &impl Output, least: usize, text: &[u8]) -> bool {
    write_output(rt, b"in field 70, with your own five digits in the code:\n");
    tell_field(rt, DetailsField::In70, least, text);
    write_output(rt, b"in field 72 of a 202:\n");
    let in72 = tell_field(rt, DetailsField::In72, least, text);
    write_output(rt, b"behind an RPP line ");
    tell_fit(rt, DetailsField::BehindRpp, least, text, in72);
    in72.line > 0
}

// A half of a text that is cut, behind the code or nothing, in the lines of its field; answers how many bytes they have, marks left out.
fn tell_half(rt: &impl Output, half: Desk, into: DetailsField, code: &[u8]) -> usize {
    let mut bank = [0u8; 250];
    let o = write_text(half.sign, half.text, &mut bank);
    let Ok(n) = o else {
        return 0;
    };
    let spelt = front(&bank, n);
    let mut text = [0u8; 250];
    put(&mut text, 0, code);
    put(&mut text, code.len(), spelt);
    let size = code.len() + spelt.len();
    tell_laid(rt, into, code.len(), front(&text, size));
    size
}

// Both halves, the second in the lines of 72.
fn tell_halves(rt: &impl Output, note: DetailsField, one: Desk, two: Desk) {
    write_output(rt, b"cut behind ");
    tell_count(rt, one.text.len(), b" character", b" characters");
    write_output(rt, b":\n");
    let size = tell_half(rt, one, DetailsField::In70, code_of(one.sign));
    let more = tell_half(rt, two, note, b"");
    write_output(rt, b"it fits, with ");
    tell_bytes(rt, MOST.saturating_sub(size).saturating_sub(more));
    write_output(rt, b" left of 210\n");
}

// Answers whether it was cut.
fn tell_run(rt: &impl Output, note: DetailsField, desk: Desk) -> bool {
    let Desk { sign, text } = desk;
    match run_on(sign, code_of(sign), note, text) {
        Run::Cut(k) => {
            let one = Desk {
                sign,
                text: front(text, k),
            };
            let two = Desk {
                sign,
                text: past(text, k),
            };
            tell_halves(rt, note, one, two);
            return true;
        }
        Run::Whole => write_output(rt, b"it goes into field 70 whole\n"),
        Run::Unfit => write_output(rt, b"it can't be cut so that both fit\n"),
        Run::Stuck(_) => {}
    }
    false
}

// Where 70 can't hold the text, it runs on. Answers whether it was cut: what can be cut behind an RPP line can be without one.
fn tell_runs(rt: &impl Output, desk: Desk, least: usize, text: &[u8]) -> bool {
    let size = size_of(DetailsField::In70, least, text);
    if size.is_some() {
        return false;
    }
    write_output(rt, b"in a 103, run on into field 72, ");
    let cut = tell_run(rt, DetailsField::In72, desk);
    write_output(rt, b"and behind an RPP line, ");
    tell_run(rt, DetailsField::BehindRpp, desk);
    cut
}

// Why lines break where they do, once for all that were shown. Without the sign a text is spelt in one way only, and in 72 its length alone says how many
// lines it takes.
fn tell_why(rt: &impl Output, sign: bool) {
    write_output(rt, b"no other break of the same bank text saves a line");
    if sign {
        write_output(rt, b"; in field 70 another spelling, equally short, may");
    }
    write_output(rt, b"\n");
}

// Details have a byte at least behind their code. The longest bank text goes behind the longer code.
pub(crate) fn tell_details(rt: &impl Output, desk: Desk, bank: &[u8]) {
    if bank.is_empty() {
        write_output(rt, b"no details: behind the code there must be a text\n");
        return;
    }
    let code = code_of(desk.sign);
    let mut room = [0u8; 10011];
    put(&mut room, 0, code);
    put(&mut room, code.len(), bank);
    let text = front(&room, code.len() + bank.len());
    let broken = tell_fields(rt, code.len(), text);
    let cut = tell_runs(rt, desk, code.len(), text);
    if broken || cut {
        tell_why(rt, desk.sign);
    }
}
