// Numbers and lines on standard output.
use streams::{Output, write_output};

// Stays: `print!` is no plainer, since the word on standard error stands behind `write_output`.
pub(crate) fn tell_number(rt: &impl Output, n: usize) {
    let mut digits = [0u8; 20];
    let k = io::decimal(n as u64, &mut digits);
    write_output(rt, &digits[..k]);
}

// How many there are, and of what: one, or more or none.
pub(crate) fn tell_count(rt: &impl Output, n: usize, one: &[u8], many: &[u8]) {
    tell_number(rt, n);
    write_output(rt, if n == 1 { one } else { many });
}

pub(crate) fn tell_bytes(rt: &impl Output, n: usize) {
    tell_count(rt, n, b" byte", b" bytes");
}

// The rest of a line: a tab and a text.
pub(crate) fn tell_text(rt: &impl Output, text: &[u8]) {
    write_output(rt, b"\t");
    write_output(rt, text);
    write_output(rt, b"\n");
}
