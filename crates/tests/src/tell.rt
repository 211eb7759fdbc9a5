// Pieces of what is written. None ends a line.
use base::bytes::is_same;
use streams::{Output, write_output};

pub(crate) fn tell(rt: &impl Output, n: u64, end: &[u8]) {
    let mut digits = [0u8; 20];
    let k = io::decimal(n, &mut digits);
    write_output(rt, &digits[..k]);
    write_output(rt, end);
}

pub(crate) fn tell_refusal(rt: &impl Output, number: u32, place: usize) {
    write_output(rt, b"refused\t");
    tell(rt, number as u64, b"\t");
    tell(rt, place as u64, b"");
}

pub(crate) fn tell_same(rt: &impl Output, a: &[u8], b: &[u8]) {
    if is_same(a, b) {
        write_output(rt, b"same");
        return;
    }
    write_output(rt, b"other");
}
