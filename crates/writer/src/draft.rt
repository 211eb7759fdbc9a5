// The message that a sheet would be, not judged: a refused one can be looked at.
ghost use Rattle.writer.specs.Sheet.{DraftTo};

use super::built::{build, put_built};
use base::{Outcome, Refusal};

// The message built for a sheet. It is measured first, with no room to speak of, so that what stops half way has written nothing.
pub fn draft(sheet: &[u8], out: &mut [u8]) -> Outcome
    ensures { DraftTo sheet.now out.old result out.new }
{
    let mut none = [0u8; 1];
    let built = build(sheet, &mut none)?;
    let size = built.size;
    if out.len() < size {
        return Err(Refusal {
            number: 17,
            place: size,
        });
    }
    put_built(sheet, built.form, built.sign, built.cutting, out);
    Ok(size)
}
