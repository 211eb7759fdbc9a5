#![tactic(auto)]
// Goes through a stored list of texts, messages and sheets, and writes what the calls answer: of a text only where it comes out
// otherwise than the list has it. The first word of a record's line says what the record is.
ghost use Rattle.std.specs.Prelude.{◌<◌, IfSome};

mod back;
mod checks;
mod heads;
mod rooms;
mod tally;
mod tell;
mod texts;
mod written;

use base::bytes::front;
use checks::take_message;
use heads::word_of;
use stored::line_at;
use streams::{Output, read_input, write_output};
use tally::{Counts, LONGEST, Taken};
use tell::tell;
use texts::take_text;
use written::take_sheet;

// Nothing for a record of wrong form.
fn take(rt: &impl Output, list: &[u8], at: usize) -> Option<Taken>
    ensures { IfSome result (λ taken. at < taken.next) }
{
    match word_of(line_at(list, at), 0) {
        b"text" => take_text(rt, list, at),
        b"message" => take_message(rt, list, at),
        b"sheet" => take_sheet(rt, list, at),
        _ => None,
    }
}

fn tell_wrong(rt: &impl Output, at: usize) {
    write_output(rt, b"a record of wrong form at ");
    tell(rt, at as u64, b"\n");
}

// Up to the first record of wrong form; behind the last one the counts are told.
fn go_through(rt: &impl Output, list: &[u8]) {
    let mut counts = Counts::default();
    let mut at = 0;
    // Stays: each record says where the next one begins, so there is nothing for an iterator to go over.
    while at < list.len() {
        let Some(taken) = take(rt, list, at) else {
            tell_wrong(rt, at);
            return;
        };
        counts.add(taken.kind);
        at = taken.next;
    }
    counts.tell(rt);
}

// Room for the list and a byte more.
fn list_room() -> [u8; LONGEST + 1] {
    [0u8; LONGEST + 1]
}

// Nothing is written where the list can't be read.
fn main(rt: HostRuntime) {
    let mut list = list_room();
    let Ok(n) = read_input(&rt, &mut list) else {
        return;
    };
    if n > LONGEST {
        write_output(&rt, b"the list is longer than ");
        tell(&rt, LONGEST as u64, b" bytes\n");
        return;
    }
    go_through(&rt, front(&list, n));
}
