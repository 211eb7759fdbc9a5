// The check of a message.
ghost use Rattle.message.specs.Calls.{Checks};

use super::Accepted;
use super::verdict::judged;
use base::Refusal;
use types::Form;

// Colon, content start and content end of each field, put into the list where it has room for all. The word has as many ones as there are
// fields.
pub fn check(form: Form, m: &[u8], list: &mut [u32]) -> Result<Accepted, Refusal>
    ensures { Checks form m.now list.old result list.new }
{
    let f = judged(form, m)?;
    let n = f.frame.present.count_ones() as usize;
    if list.len() < 3 * n {
        return Err(Refusal {
            number: 17,
            place: 3 * n,
        });
    }
    f.fill(list);
    Ok(Accepted {
        fields: n,
        present: f.frame.present,
    })
}
