// A text that can't be written.
use crate::words::{tell_number, tell_text};
use base::bytes::{front, put};
use streams::{Output, write_output};

// The most bytes of a desk text.
const LIMIT: usize = 5000;

const DEL: u8 = 0x7F;

// The one byte to which windows-1251 gives no sign.
const FREE: u8 = 0x98;

// A byte that would steer the screen is shown as a point.
fn shown(b: u8) -> u8 {
    match b {
        0..=0x1F | DEL | FREE => b'.',
        _ => b,
    }
}

fn screen(text: &mut [u8]) {
    for b in text.iter_mut() {
        *b = shown(*b);
    }
}

// The text, and a mark under the byte at the place.
fn tell_mark(rt: &impl Output, place: usize, desk: &[u8]) {
    let mut line = [0u8; LIMIT];
    put(&mut line, 0, desk);
    screen(&mut line);
    write_output(rt, front(&line, desk.len()));
    write_output(rt, b"\n");
    let blanks = [b' '; LIMIT];
    write_output(rt, front(&blanks, place));
    write_output(rt, b"^\n");
}

// Of a text alone there are 1 and 15; the room for it is long enough.
pub(crate) fn tell_refusal(rt: &impl Output, number: u32, place: usize, desk: &[u8]) {
    write_output(rt, b"refused\t");
    tell_number(rt, number as usize);
    write_output(rt, b"\t");
    tell_number(rt, place);
    if number == 1 {
        tell_text(rt, b"The text is longer than 5,000 bytes");
        return;
    }
    tell_text(rt, b"A character that can't be sent");
    tell_mark(rt, place, desk);
}
