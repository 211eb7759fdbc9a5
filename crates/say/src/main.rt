#![tactic(auto)]
// The clerk's measure. Each line of standard input is a desk text (windows-1251), the last one without an LF too. For each come
// out its bank text, how long that is and what it reads as, and the lines that it makes behind a VO code, with the room left; or
// why it can't be written. A line that begins with a tab is measured without the sign.
mod lines;
mod refusals;
mod words;

use alphabets::{read_text, write_text};
use base::Refusal;
use base::bytes::front;
use lines::{Desk, tell_details};
use refusals::tell_refusal;
use stored::up_to;
use streams::{Output, read_input, write_output};
use words::{tell_bytes, tell_text};

// The most bytes that are taken at once.
const MOST: usize = 65536;

fn tell_back(rt: &impl Output, sign: bool, bank: &[u8]) {
    let mut desk = [0u8; 5000];
    let o = read_text(sign, bank, &mut desk);
    let Ok(n) = o else {
        return;
    };
    write_output(rt, b"read back");
    tell_text(rt, front(&desk, n));
}

fn tell_bank(rt: &impl Output, desk: Desk, bank: &[u8]) {
    write_output(rt, b"bank text");
    tell_text(rt, bank);
    write_output(rt, b"its length\t");
    tell_bytes(rt, bank.len());
    write_output(rt, b"\n");
    tell_back(rt, desk.sign, bank);
    tell_details(rt, desk, bank);
}

fn measure(rt: &impl Output, desk: Desk) {
    let mut bank = [0u8; 10000];
    let o = write_text(desk.sign, desk.text, &mut bank);
    match o {
        Ok(n) => tell_bank(rt, desk, front(&bank, n)),
        Err(Refusal { number, place }) => tell_refusal(rt, number, place, desk.text),
    }
    write_output(rt, b"\n");
}

fn measure_line(rt: &impl Output, line: &[u8]) {
    match line.strip_prefix(b"\t") {
        Some(text) => {
            write_output(rt, b"without the sign\n");
            measure(rt, Desk { sign: false, text });
        }
        None => measure(
            rt,
            Desk {
                sign: true,
                text: line,
            },
        ),
    }
}

fn measure_each(rt: &impl Output, texts: &[u8]) {
    for line in texts.split_inclusive(|b| *b == b'\n') {
        measure_line(rt, up_to(b'\n', line));
    }
}

// Room for the texts and a byte more.
fn input_room() -> [u8; 65537] {
    [0u8; 65537]
}

fn main(rt: HostRuntime) {
    let mut texts = input_room();
    let Ok(n) = read_input(&rt, &mut texts) else {
        return;
    };
    if n > MOST {
        write_output(
            &rt,
            b"The texts are longer than 65,536 bytes: ask for fewer at once\n",
        );
        return;
    }
    measure_each(&rt, front(&texts, n));
}
