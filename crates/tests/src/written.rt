// A sheet through `to_message`, there and back: the number of bytes, the message and whether it reads back, or the refusal. The line of
// a sheet has the bytes of room and the bytes of the sheet.
ghost use Rattle.std.specs.Prelude.{◌<◌, IfSome};

use crate::back::tell_read;
use crate::heads::number_within;
use crate::rooms::{ROOM, blank_room, is_blank, lent};
use crate::tally::{Kind, Taken};
use crate::tell::{tell, tell_refusal};
use base::Refusal;
use base::bytes::front;
use stored::{body_at, cut, line_at};
use streams::{Output, write_output};
use types::Form;
use writer::to_message::to_message;

// The words of the line, by the spaces in front.
const LENT: usize = 1;

const BYTES: usize = 2;

// The room behind the bytes that were reported has to be as it was.
fn tell_touched(rt: &impl Output, room: &[u8], n: usize) {
    if !is_blank(room, n) {
        write_output(rt, b"\ttouched");
    }
}

// The form of a sheet that was written, by the first digit of its type.
fn form_named(sheet: &[u8]) -> Form {
    match sheet.get(3) {
        Some(b'1') => Form::Mt103,
        Some(_) => Form::Mt202,
        None => Form::Other,
    }
}

fn tell_written(rt: &impl Output, sheet: &[u8], n: usize, room: &[u8]) {
    let m = front(room, n);
    tell(rt, n as u64, b"\n");
    write_output(rt, m);
    write_output(rt, b"\nback\t");
    tell_read(rt, form_named(sheet), m, sheet);
    tell_touched(rt, room, n);
}

fn tell_message(rt: &impl Output, sheet: &[u8], room: usize) {
    let mut out = blank_room();
    match to_message(sheet, lent(&mut out, room)) {
        Ok(n) => tell_written(rt, sheet, n, &out),
        Err(Refusal { number, place }) => {
            tell_refusal(rt, number, place);
            tell_touched(rt, &out, 0);
        }
    }
}

pub(crate) fn take_sheet(rt: &impl Output, list: &[u8], at: usize) -> Option<Taken>
    ensures { IfSome result (λ taken. at < taken.next) }
{
    let room = number_within(line_at(list, at), LENT, ROOM)?;
    let body = body_at(list, at, BYTES)?;
    let next = body.next?;
    tell_message(rt, cut(list, body.start, body.size?), room);
    write_output(rt, b"\n");
    Some(Taken {
        kind: Kind::Sheet,
        next,
    })
}
