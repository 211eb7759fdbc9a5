// The call: a sheet's message built in room of its own, judged, and handed over.
ghost use Rattle.std.specs.Prelude.{◌≤◌, length};
ghost use Rattle.writer.specs.Sheet.{MessageTo};
ghost use Rattle.writer.specs.Steps.{Hands};

use super::built::{ROOM, build};
use base::bytes::put;
use base::{Outcome, Refusal};
use message::verdict::judge;
use types::Form;

// The message put into the lent room, which has room for it; or its own refusal, with place 0.
fn hand_over(form: Form, m: &[u8], out: &mut [u8]) -> Outcome
    requires { length m.now ≤ length out.old }
    ensures { Hands form m.now out.old result out.new }
{
    if let Err(Refusal { number, place: _ }) = judge(form, m) {
        return Err(Refusal { number, place: 0 });
    }
    put(out, 0, m);
    Ok(m.len())
}

// The message for a sheet. It is built in room of its own, so that what stops half way has written nothing.
pub fn to_message(sheet: &[u8], out: &mut [u8]) -> Outcome
    ensures { MessageTo sheet.now out.old result out.new }
{
    let mut m = [0u8; ROOM];
    let built = build(sheet, &mut m)?;
    let size = built.size;
    if out.len() < size {
        return Err(Refusal {
            number: 17,
            place: size,
        });
    }
    if ROOM < size {
        return Err(Refusal {
            number: 1,
            place: 0,
        });
    }
    hand_over(built.form, &m[..size], out)
}
