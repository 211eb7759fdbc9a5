// The one pass over the lines: 3, 4 and the walk.
ghost use Rattle.std.specs.Prelude.{◌≡◌, ◌≤◌, length};
ghost use Rattle.base.specs.Bytes.{classes};
ghost use Rattle.base.specs.Rules.{then};
ghost use Rattle.base.specs.Verdicts.{Fine, answered};
ghost use Rattle.fields.specs.Frame.{rule_2, rule_3, rule_4};
ghost use Rattle.types.specs.Walk.{walked};
ghost use Rattle.types.specs.Form.{places_of};
ghost use Rattle.frame.specs.Frame.{fields_found};

use super::late::{late_field, late_line};
use super::lines::{end_of, is_bad_line, is_ended};
use super::{Frame, SPOTS};
use base::Refusal;
use base::bits::bit_of;
use fields::line_tag;
use types::Form;
use types::steps::Places;

pub(crate) fn pass(form: Form, t: &[u8; 256], places: &Places, m: &[u8]) -> Result<Frame, Refusal>
    requires { (t.now ≡ classes) × (places.now ≡ places_of form) × (length m.now ≤ 10000) × (rule_2 m.now ≡ Fine) }
    ensures { result ≡ answered (then (rule_3 m.now) (then (rule_4 m.now) (walked form m.now))) (fields_found form m.now) }
{
    let e = m.len() - 2;
    let mut spots = [0u32; SPOTS];
    let mut at = 5;
    let mut n = 0;
    let mut next = 0;
    let mut word: u32 = 0;
    // Stays: from line to line by its end, for the reason that the loops of late.rt do.
    while at < e {
        let end = end_of(t, m, at);
        if !is_ended(m, end) {
            return Err(Refusal {
                number: 3,
                place: end,
            });
        }
        let line = &m[at..end];
        let tag = line_tag(line);
        if is_bad_line(at == 5, line, tag) {
            return Err(late_line(t, m, end + 2, at));
        }
        let Some(tag) = tag else {
            at = end + 2;
            continue;
        };
        let step = places.step_of(next, tag);
        if let Some(wrong) = step.wrong {
            return Err(late_field(t, m, end + 2, wrong, at));
        }
        spots[n] = at as u32;
        n += 1;
        word += bit_of(step.place);
        next = step.place + 1;
        at = end + 2;
    }
    if places.is_missing(next) {
        return Err(Refusal {
            number: 7,
            place: e,
        });
    }
    spots[n] = e as u32;
    Ok(Frame {
        fields: n,
        present: word,
        spots,
    })
}
