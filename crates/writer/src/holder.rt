// Which record of a sheet was written as the field that holds a byte of its message.
ghost use Rattle.std.specs.Prelude.{◌≡◌, false, ◌≤◌, length};
ghost use Rattle.base.specs.Verdicts.{Fine};
ghost use Rattle.records.specs.Places.{starts_of};
ghost use Rattle.records.specs.Found.{pieces_at, bad_sheet_line};
ghost use Rattle.writer.specs.Spread.{spread};
ghost use Rattle.writer.specs.Sheet.{rule_15, some_crowded};
ghost use Rattle.writer.specs.Steps.{records_at};
ghost use Rattle.writer.specs.Holder.{lies_in, holder_in, holder_of};

use super::built::{build, put_record};
use super::runs::put_run;
use super::walk::Walk;
use types::Form;

// The place stands in what goes from one place up to another.
pub(crate) fn is_between(place: usize, from: usize, to: usize) -> bool
    ensures { result ≡ lies_in place from to }
{
    from <= place && place < to
}

// Of a sheet that no rule refuses: its fields one behind the other, with no room to speak of.
fn find_holder(s: &[u8], form: Form, sign: bool, place: usize) -> Option<usize>
    requires { (length s.now ≤ 10000) × (7 ≤ length s.now) × (bad_sheet_line form sign 7 (pieces_at 10 s.now 7) ≡ Fine) × (rule_15 form sign 7 (records_at s.now 7) ≡ Fine) × (some_crowded form sign (records_at s.now 7) ≡ false) }
    ensures { result ≡ holder_in place 5 (starts_of 7 (records_at s.now 7)) (spread form sign (records_at s.now 7)) }
{
    let mut none = [0u8; 1];
    let mut n = 5;
    for (i, record) in Walk::new(s, 7) {
        let Ok(m) = put_record(form, sign, record, &mut none, n) else {
            return None;
        };
        if is_between(place, n, m) {
            return Some(i);
        }
        n = m;
    }
    None
}

// The record whose field holds the byte at the place of the message built for the sheet, by the place of the sheet where it starts; none where
// that byte came from no record.
pub fn record_at(sheet: &[u8], place: usize) -> Option<usize>
    ensures { result ≡ holder_of sheet.now place }
{
    let mut none = [0u8; 1];
    let Ok(built) = build(sheet, &mut none) else {
        return None;
    };
    match built.cutting {
        None => find_holder(sheet, built.form, built.sign, place),
        Some(c) => {
            let run = put_run(
                sheet,
                built.sign,
                &sheet[c.start..c.cut],
                &sheet[c.cut..c.end],
                c.start,
                c.new,
                place,
                &mut none,
            );
            run.holder
        }
    }
}
