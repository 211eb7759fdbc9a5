// A text through its call, held against what the list expects. The line of a text has the name, the way, the sign, the room, the
// number, the place, the bytes of the input, and how many raw bytes the expected text has and the input has: bench/texts.py says more.
// A text that has more bytes than raw bytes goes on with these from the first.
ghost use Rattle.std.specs.Prelude.{◌<◌, IfSome};

use crate::heads::{number_of, number_within, word_of};
use crate::rooms::{ROOM, blank_room, lent};
use crate::tally::{Kind, Taken};
use crate::tell::{tell, tell_refusal};
use base::bytes::{front, is_same};
use base::{Outcome, Refusal};
use stored::{behind, body_at, cut, line_at};
use streams::{Output, write_output};

// The words of the line, by the spaces in front.
const NAME: usize = 1;

const WAY: usize = 2;

const SIGN: usize = 3;

const LENT: usize = 4;

const NUMBER: usize = 5;

const PLACE: usize = 6;

const LENGTH: usize = 7;

const TEXT: usize = 8;

const INPUT: usize = 9;

// Which call a text goes through.
#[derive(Clone, Copy)]
enum Way {
    Read,
    Write,
}

// A call, with the sign or without, and the room that it is lent.
#[derive(Clone, Copy)]
struct Call {
    way: Way,
    sign: bool,
    room: usize,
}

fn call_of(head: &[u8]) -> Option<Call> {
    let way = match word_of(head, WAY) {
        b"r" => Way::Read,
        b"w" => Way::Write,
        _ => return None,
    };
    let sign = match word_of(head, SIGN) {
        b"+" => true,
        b"-" => false,
        _ => return None,
    };
    let room = number_within(head, LENT, ROOM)?;
    Some(Call { way, sign, room })
}

// The raw bytes over and over.
fn fill(out: &mut [u8], raw: &[u8]) {
    if raw.is_empty() {
        return;
    }
    for (i, b) in out.iter_mut().enumerate() {
        *b = raw[i % raw.len()];
    }
}

fn answer(call: Call, input: &[u8], out: &mut [u8]) -> Outcome {
    let out = lent(out, call.room);
    match call.way {
        Way::Read => alphabets::read_text(call.sign, input, out),
        Way::Write => alphabets::write_text(call.sign, input, out),
    }
}

// The number is 0 where a text is expected, and the place is then its length.
fn is_answer(said: Outcome, number: usize, place: usize) -> bool {
    match said {
        Ok(n) => number == 0 && place == n,
        Err(
            Refusal {
                number: rule,
                place: spot,
            },
        ) => number == rule as usize && place == spot,
    }
}

// The answer and the whole room.
fn is_expected(head: &[u8], said: Outcome, out: &[u8], text: &[u8]) -> bool {
    let (Some(number), Some(place)) = (number_of(head, NUMBER), number_of(head, PLACE)) else {
        return false;
    };
    let mut wanted = blank_room();
    fill(lent(&mut wanted, place), text);
    is_answer(said, number, place) && is_same(out, &wanted)
}

// A record's name and what was answered. As expected, that says that the room was not left so.
fn tell_said(rt: &impl Output, head: &[u8], said: Outcome, out: &[u8]) {
    write_output(rt, word_of(head, NAME));
    write_output(rt, b"\t");
    match said {
        Ok(n) => {
            write_output(rt, b"said\t");
            tell(rt, n as u64, b"\t");
            write_output(rt, front(out, n));
        }
        Err(Refusal { number, place }) => tell_refusal(rt, number, place),
    }
}

// A text as the call of its line has it; it is told where it comes out otherwise.
fn kind_of(rt: &impl Output, head: &[u8], call: Call, input: &[u8], text: &[u8]) -> Kind {
    let mut out = blank_room();
    let said = answer(call, input, &mut out);
    if is_expected(head, said, &out, text) {
        return Kind::Text;
    }
    tell_said(rt, head, said, &out);
    write_output(rt, b"\n");
    Kind::Otherwise
}

pub(crate) fn take_text(rt: &impl Output, list: &[u8], at: usize) -> Option<Taken>
    ensures { IfSome result (λ taken. at < taken.next) }
{
    let head = line_at(list, at);
    let call = call_of(head)?;
    let length = number_within(head, LENGTH, ROOM)?;
    let body = body_at(list, at, INPUT)?;
    let start = body.next?;
    let size = number_of(head, TEXT)?;
    let next = behind(list, start, size)?;
    let mut input = blank_room();
    fill(lent(&mut input, length), cut(list, body.start, body.size?));
    let kind = kind_of(
        rt,
        head,
        call,
        front(&input, length),
        cut(list, start, size),
    );
    Some(Taken { kind, next })
}
