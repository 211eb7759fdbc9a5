// The call: a message judged, and its sheet put into the lent room, measured first where that may be too short.
ghost use Rattle.sheets.specs.Calls.{SheetTo};

use super::built::put_sheet;
use base::{Outcome, Refusal};
use message::verdict::judged;
use types::Form;

// The sheet of a message. It is put at once where there is room for the message, since it is no longer; else the room is tested before it is
// filled.
pub fn to_sheet(form: Form, m: &[u8], out: &mut [u8]) -> Outcome
    ensures { SheetTo form m.now out.old result out.new }
{
    let f = judged(form, m)?;
    if out.len() < m.len() {
        let mut none = [0u8; 1];
        let size = put_sheet(&f, &mut none);
        if out.len() < size {
            return Err(Refusal {
                number: 17,
                place: size,
            });
        }
    }
    Ok(put_sheet(&f, out))
}
