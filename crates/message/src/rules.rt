// 9 to 13, from what they need of the fields.
ghost use Rattle.std.specs.Prelude.{◌≡◌};
ghost use Rattle.message.specs.Facts.{as_verdict, open_bank, tax_rule, value_rules};

use super::facts::Facts;
use base::{Refusal, Verdict};

// 11: no 57 behind a 56.
fn open_bank(through: bool, bank: Option<usize>) -> Option<usize>
    ensures { result ≡ open_bank through bank }
{
    if through { None } else { bank }
}

fn as_verdict(number: u32, place: Option<usize>) -> Verdict
    ensures { result ≡ as_verdict number place }
{
    match place {
        None => Ok(()),
        Some(place) => Err(Refusal { number, place }),
    }
}

// 13: at 26T where there is one.
fn tax_rule(purpose: Option<usize>, budget: Option<usize>, whole: bool) -> Verdict
    ensures { result ≡ tax_rule purpose budget whole }
{
    if purpose.is_none() {
        return as_verdict(13, budget);
    }
    if budget.is_some() && whole {
        return Ok(());
    }
    as_verdict(13, purpose)
}

pub(crate) fn values_rule(f: Facts) -> Verdict
    ensures { result ≡ value_rules f }
{
    as_verdict(9, f.day)?;
    as_verdict(10, f.currency)?;
    as_verdict(11, open_bank(f.through, f.bank))?;
    as_verdict(12, f.party)?;
    tax_rule(f.purpose, f.budget, f.payer && f.payee)
}
