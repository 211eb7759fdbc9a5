// 21: details of a 103 that run on into 72 are no longer than they may be.
ghost use Rattle.std.specs.Prelude.{◌≡◌};
ghost use Rattle.fields.specs.Field.{fields};
ghost use Rattle.contents.specs.Rule8.{rule_8};
ghost use Rattle.roles.specs.Rule21.{rule_21};
ghost use Rattle.base.specs.Verdicts.{Fine};

use super::content::cut;
use super::parts::Fields;
use base::bits::bit_at;
use base::{Refusal, Verdict};
use roles::lengths::over_most;
use types::Form;

// The places of 70 and 72 in a 103.
// Stays: by number, since every message is asked for its 72 and a number costs no search; `places_of` has them at these places (LengthLaws).
const DETAILS: usize = 10;

const NOTE: usize = 12;

// What 70 leaves of the bytes that details may have, however full it is. As 72 is one of the last two fields, there are not too many where these
// have no more: most often 72 is an RPP line alone.
const LEFT: u32 = 70;

pub(crate) fn lengths_rule(f: &Fields) -> Verdict
    requires { rule_8 f.now.form f.now.message.now ≡ Fine }
    ensures { result ≡ rule_21 f.now.form (fields f.now.message.now) }
{
    let Form::Mt103 = f.form else {
        return Ok(());
    };
    if bit_at(f.frame.present, NOTE) == 0 {
        return Ok(());
    }
    let n = f.count();
    let dash = f.frame.spots[n];
    let last = f.frame.spots[n - 2];
    if dash - last <= LEFT {
        return Ok(());
    }
    let Some(in72) = f.part_of(NOTE) else {
        return Ok(());
    };
    let in70 = cut(f.message, f.part_of(DETAILS));
    let Some(i) = over_most(in70, &f.message[in72.start..in72.end]) else {
        return Ok(());
    };
    Err(Refusal {
        number: 21,
        place: in72.start + i,
    })
}
