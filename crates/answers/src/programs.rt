// The answer of each program for its whole input.
ghost use Rattle.std.specs.Prelude.{◌≡◌, true};
ghost use Rattle.records.specs.Rule19.{type_number};
ghost use Rattle.answers.specs.Programs.{MessageAnswered, SheetAnswered, names_type};
ghost use Rattle.answers.specs.Steps.{roomless, ReadsNamed};

use super::shown::put_shown;
use base::bytes::{ZERO, is_digit, past, wide};
use base::{Outcome, Refusal};
use sheets::to_sheet::to_sheet;
use types::forms::form_of;
use writer::to_message::to_message;

// Room of 10,000 bytes is too short only for a message that 1 refuses.
fn past_room(a: Outcome) -> Outcome
    ensures { result ≡ roomless a }
{
    let Err(Refusal { number, place }) = a else {
        return a;
    };
    if number == 17 {
        return Err(Refusal {
            number: 1,
            place: 0,
        });
    }
    Err(Refusal { number, place })
}

// What `tomessage` writes for a sheet.
pub fn message_answer(sheet: &[u8], out: &mut [u8]) -> Outcome
    ensures { MessageAnswered sheet.now out.old result out.new }
{
    let mut m = [0u8; 10000];
    let a = past_room(to_message(sheet, &mut m));
    put_shown(a, &m, out)
}

// Three digits and LF stand in front.
fn names_type(i: &[u8]) -> bool
    ensures { result ≡ names_type i.now }
{
    if i.len() < 4 {
        return false;
    }
    if !is_digit(i[0]) {
        return false;
    }
    if !is_digit(i[1]) {
        return false;
    }
    if !is_digit(i[2]) {
        return false;
    }
    i[3] == b'\n'
}

fn type_of(i: &[u8]) -> u32
    requires { names_type i.now ≡ true }
    ensures { result ≡ type_number i.now }
{
    (wide(i[0]) - ZERO) * 100 + (wide(i[1]) - ZERO) * 10 + (wide(i[2]) - ZERO)
}

// The type, then the message behind it.
fn read_named(i: &[u8], m: &mut [u8]) -> Outcome
    ensures { ReadsNamed i.now m.old result m.new }
{
    if !names_type(i) {
        return Err(Refusal {
            number: 18,
            place: 0,
        });
    }
    to_sheet(form_of(type_of(i)), past(i, 4), m)
}

// What `tosheet` writes for its input.
pub fn sheet_answer(input: &[u8], out: &mut [u8]) -> Outcome
    ensures { SheetAnswered input.now out.old result out.new }
{
    let mut m = [0u8; 10000];
    let a = read_named(input, &mut m);
    put_shown(a, &m, out)
}
