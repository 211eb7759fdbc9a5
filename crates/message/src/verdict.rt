// The call: the quick pass, then what the fields hold.
ghost use Rattle.std.specs.Prelude.{◌≡◌};
ghost use Rattle.base.specs.Rules.{first};
ghost use Rattle.base.specs.Verdicts.{Fine};
ghost use Rattle.fields.specs.Field.{fields};
ghost use Rattle.contents.specs.Rule8.{rule_8};
ghost use Rattle.roles.specs.Rule14.{rule_14};
ghost use Rattle.message.specs.Facts.{nothing_yet, facts_from};
ghost use Rattle.message.specs.Fields.{HandsOn};
ghost use Rattle.message.specs.Message.{inner_rules, content_rules, verdict_of, judged_of};

use super::facts::{Facts, read_fields};
use super::lengths::lengths_rule;
use super::parts::Fields;
use super::rules::values_rule;
use super::speeches::speeches_rule;
use alphabets::pieces::back_table;
use base::{Refusal, Verdict};
use frame::Frame;
use types::Form;

// 14, of a message with the sign.
fn texts_rule(f: &Fields) -> Verdict
    ensures { result ≡ rule_14 f.now.form (fields f.now.message.now) }
{
    if !f.sign {
        return Ok(());
    }
    let back = back_table();
    speeches_rule(&back, f)
}

// 9 to 14 and 21, from what was found in right contents.
fn inner_verdict(f: &Fields, facts: Facts) -> Verdict
    requires { (facts ≡ facts_from f.now.form nothing_yet 5 (fields f.now.message.now)) × (rule_8 f.now.form f.now.message.now ≡ Fine) }
    ensures { result ≡ first (inner_rules f.now.form (fields f.now.message.now)) }
{
    values_rule(facts)?;
    texts_rule(f)?;
    lengths_rule(f)
}

// 8 to 14 and 21.
fn content_verdict(f: &Fields) -> Verdict
    ensures { result ≡ first (content_rules f.now.form f.now.message.now) }
{
    match read_fields(f) {
        Err(place) => Err(Refusal { number: 8, place }),
        Ok(facts) => inner_verdict(f, facts),
    }
}

// The fields of a message that is accepted, or its refusal.
pub fn judged<'a>(form: Form, m: &'a [u8]) -> Result<Fields<'a>, Refusal>
    ensures { HandsOn form m.entry (verdict_of form m.now) result }
{
    let f = Fields::taken(form, m)?;
    content_verdict(&f)?;
    Ok(f)
}

// The message's refusal, or where its fields stand.
pub fn judge(form: Form, m: &[u8]) -> Result<Frame, Refusal>
    ensures { result ≡ judged_of form m.now }
{
    let f = judged(form, m)?;
    Ok(f.frame)
}
