// A message held together with a place: its contents are handed over one after another.
#![tactic(auto)]

ghost use Rattle.std.specs.Prelude.{◌≡◌};
ghost use Rattle.types.specs.Form.{form_of};
ghost use Rattle.message.specs.Calls.{content_of};
ghost use Rattle.message.specs.Message.{judged_of};
ghost use Rattle.reader.specs.Reading.{next_bit, present_in, place_behind, Opened, MovedOn, at_hand};

use base::bits::bit_at;
use message::content::content;
use message::verdict::judge;
use types::forms::form_of;

// Stays: functions over a struct that is copied, and no Iterator, as the rules name this form (docs/DECISIONS.md).
#[derive(Clone, Copy)]
pub struct Reader<'a> {
    pub kind: u32,
    pub message: &'a [u8],
    pub place: usize,
}

// Behind the last place of a word.
const END: usize = 32;

// The first bit from a place on that is set, the end where none is.
fn next_bit(word: u32, from: usize) -> usize
    ensures { result ≡ next_bit word from }
{
    (from..END).find(|&i| bit_at(word, i) == 1).unwrap_or(END)
}

// The word of the places present; none of a refused message.
fn present_in(kind: u32, m: &[u8]) -> u32
    ensures { result ≡ present_in (judged_of (form_of kind) m.now) }
{
    match judge(form_of(kind), m) {
        Ok(f) => f.present,
        Err(_) => 0,
    }
}

// The next place with a content; the end behind the last, and of a refused message.
pub fn place_behind(kind: u32, m: &[u8], place: usize) -> usize
    ensures { result ≡ place_behind (form_of kind) m.now place }
{
    if END <= place {
        return END;
    }
    next_bit(present_in(kind, m), place + 1)
}

// At the first place, which every accepted message has.
pub fn open<'a>(kind: u32, message: &'a [u8]) -> Reader<'a>
    ensures { Opened kind message.entry result }
{
    Reader {
        kind,
        message,
        place: 0,
    }
}

// The content at hand, a part of the message; empty at the end.
pub fn current<'a>(r: Reader<'a>) -> &'a [u8]
    ensures { result.now ≡ at_hand r.entry }
{
    content(form_of(r.kind), r.message, r.place)
}

// Moved on to the next place with a content.
pub fn moved<'a>(r: Reader<'a>) -> Reader<'a>
    ensures { MovedOn r.entry result }
{
    let place = place_behind(r.kind, r.message, r.place);
    Reader {
        kind: r.kind,
        message: r.message,
        place,
    }
}

// The first content of a message.
pub fn first(kind: u32, message: &[u8]) -> &[u8]
    ensures { result.now ≡ content_of (form_of kind) message.now 0 }
{
    current(open(kind, message))
}

#[cfg(test)]
mod tests {
    use super::*;
    use base::bytes::is_same;

    // A reader is copied: one that was asked for its content is moved on, and can be asked again. No contract says so.
    #[test]
    fn hands_over_one_after_another(rt: HostRuntime) {
        let message =
            b"{4:\r\n:20:+A17\r\n:23B:CRED\r\n:32A:240229RUB1500,5\r\n:50K:/40702\r\n'NORD'\r\n:53B:/D/30111810500000100000\r\n:59:/40702810700000099079\r\nINN7707083893\r\nOOO PoTR\r\n:70:'(VO10100)'OPLATA 'CNTR' 5\r\n:71A:OUR\r\n-}";
        let r = open(103, message);
        assert!(rt; is_same(current(r), b"+A17"));
        let next = moved(r);
        assert!(rt; is_same(current(next), b"CRED"));
        assert!(rt; is_same(current(r), b"+A17"));
    }
}
