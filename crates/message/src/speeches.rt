// 14: each text can be read, and hides nothing.
ghost use Rattle.std.specs.Prelude.{◌≡◌};
ghost use Rattle.alphabets.specs.Steps.{back_table};
ghost use Rattle.fields.specs.Field.{fields};
ghost use Rattle.roles.specs.Rule14.{unheard, speeches_of};

use super::parts::Fields;
use base::{Refusal, Verdict};
use roles::texts::broken_text;

pub(crate) fn speeches_rule(back: &[u8; 256], f: &Fields) -> Verdict
    requires { back.now ≡ back_table }
    ensures { result ≡ unheard (speeches_of f.now.form 5 (fields f.now.message.now)) }
{
    for k in 0..f.count() {
        let p = f.at(k);
        if let Some(i) = broken_text(back, f.form, p.tag, &f.message[p.start..p.end]) {
            return Err(Refusal {
                number: 14,
                place: p.start + i,
            });
        }
    }
    Ok(())
}
