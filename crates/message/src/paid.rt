// The amount and the date of 32A.
ghost use Rattle.std.specs.Prelude.{◌≡◌};
ghost use Rattle.base.specs.Quoted.{bytes};
ghost use Rattle.types.specs.Form.{places_of};
ghost use Rattle.types.specs.Walk.{find};
ghost use Rattle.message.specs.Calls.{Pays, amount_of, day_of, day_split};

use super::Day;
use super::content::cut;
use super::verdict::judged;
use base::Refusal;
use types::Form;
use values::amounts::{date_of, kopecks_of};

// Stays: a place by its number, proved to be that of its tag. Tried and slower: with a second caller the pass's `step_of` is no longer inlined.
const PAID_103: usize = 3;

const PAID_202: usize = 2;

fn paid_place(form: Form) -> usize
    ensures { result ≡ find (places_of form) (bytes "32A") }
{
    match form {
        Form::Other => 0,
        Form::Mt103 => PAID_103,
        Form::Mt202 => PAID_202,
    }
}

fn split_day(date: u32) -> Day
    ensures { result ≡ day_split date }
{
    Day {
        year: date / 10000,
        month: date / 100 % 100,
        day: date % 100,
    }
}

// The content of 32A, or the refusal.
fn paid(form: Form, m: &[u8]) -> Result<&[u8], Refusal>
    ensures { Pays form m.now result }
{
    let f = judged(form, m)?;
    Ok(cut(m, f.part_of(paid_place(form))))
}

// The kopecks of 32A, or the refusal.
pub fn kopecks(form: Form, m: &[u8]) -> Result<u64, Refusal>
    ensures { result ≡ amount_of form m.now }
{
    let content = paid(form, m)?;
    Ok(kopecks_of(content))
}

// The date of 32A, or the refusal.
pub fn date(form: Form, m: &[u8]) -> Result<Day, Refusal>
    ensures { result ≡ day_of form m.now }
{
    let content = paid(form, m)?;
    Ok(split_day(date_of(content)))
}
