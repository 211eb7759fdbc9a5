// What comes back: a message read into its sheet, that sheet written again, and that message read again.
use crate::tell::{tell, tell_refusal, tell_same};
use base::Refusal;
use base::bytes::front;
use sheets::to_sheet::to_sheet;
use streams::{Output, write_output};
use types::Form;
use writer::to_message::to_message;

// No sheet that is read and no message that is written is longer.
const LONGEST: usize = 10000;

// A message read, and its sheet held against another.
pub(crate) fn tell_read(rt: &impl Output, form: Form, m: &[u8], sheet: &[u8]) {
    let mut out = [0u8; LONGEST];
    match to_sheet(form, m, &mut out) {
        Ok(n) => tell_same(rt, front(&out, n), sheet),
        Err(Refusal { number, place }) => tell_refusal(rt, number, place),
    }
}

// A sheet written, and that message read again.
fn tell_again(rt: &impl Output, form: Form, sheet: &[u8]) {
    let mut out = [0u8; LONGEST];
    match to_message(sheet, &mut out) {
        Ok(n) => {
            write_output(rt, b"again\t");
            tell(rt, n as u64, b"\t");
            tell_read(rt, form, front(&out, n), sheet);
        }
        Err(Refusal { number, place }) => tell_refusal(rt, number, place),
    }
}

pub(crate) fn tell_sheet(rt: &impl Output, form: Form, m: &[u8]) {
    let mut out = [0u8; LONGEST];
    match to_sheet(form, m, &mut out) {
        Ok(n) => {
            tell(rt, n as u64, b"\t");
            tell_again(rt, form, front(&out, n));
        }
        Err(Refusal { number, place }) => tell_refusal(rt, number, place),
    }
}
