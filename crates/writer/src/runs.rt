// A message whose details run on: the records put again, the text of 70 in two.
ghost use Rattle.std.specs.Prelude.{◌≡◌, true, false, [], ◌∷◌, ◌+◌, ◌*◌, ◌≤◌, length};
ghost use Rattle.base.specs.Choice.{pick};
ghost use Rattle.base.specs.Calls.{said, Puts};
ghost use Rattle.base.specs.Examples.{AllHold};
ghost use Rattle.base.specs.Verdicts.{Fine};
ghost use Rattle.alphabets.specs.Best.{writing};
ghost use Rattle.fields.specs.Field.{with_cr_lf, lined, message};
ghost use Rattle.types.specs.declared.Form.TheVariants.{Mt103};
ghost use Rattle.records.specs.Record.{record_of};
ghost use Rattle.records.specs.Found.{pieces_at, bad_sheet_line};
ghost use Rattle.records.specs.Rule19.{good};
ghost use Rattle.details.specs.declared.DetailsField.TheVariants.{In72, BehindRpp};
ghost use Rattle.runon.specs.Run.{bank_of, fits_in};
ghost use Rattle.runon.specs.RunOn.{tag_70, tag_72, tagged, halved, new_note, run_as};
ghost use Rattle.writer.specs.Spread.{field_for, spread};
ghost use Rattle.writer.specs.Steps.{Adds, Within, near, record_stops, record_crowded, records_at};
ghost use Rattle.writer.specs.Holder.{holder_in, sources};
ghost use Rattle.writer.specs.Runs.{one_in, otherwise, held_at, onward_by, comes_before, run_here, still_new, sources_here, Halves, Here, FieldsPut};

use super::Step;
use super::built::{put_record, put_tag};
use super::cuts::{DIGITS, tag_of};
use super::holder::is_between;
use super::notes::put_rpp;
use super::purposes::{put_purpose, put_rest};
use super::walk::Walk;
use base::bytes::put;
use details::DetailsField;
use types::Form;
use types::tags::{TAG_70, TAG_72, TAG_77B};

// What follows /RPP/ in a record of 72 of a 103 stands behind its tag and a tab.
const RPP: usize = 3;

// A message half put: whether a new 72 is still to come, the place behind, and the record that holds the byte at a place.
#[derive(Clone, Copy)]
pub(crate) struct Running {
    pub(crate) new: bool,
    pub(crate) at: usize,
    pub(crate) holder: Option<usize>,
}

// The record that was found, else the one that starts at `start`, where the place is in its field.
fn held_by(held: Option<usize>, place: usize, from: usize, to: usize, start: usize) -> Option<usize>
    ensures { result ≡ otherwise held (held_at place from to start) }
{
    held.or(is_between(place, from, to).then_some(start))
}

// A field more, made of the record that starts at `start`.
fn onward(run: Running, place: usize, step: Step, start: usize, new: bool) -> Running
    ensures { result ≡ onward_by run place step start new }
{
    let Ok(m) = step else {
        return run;
    };
    let held = run.holder;
    let holder = held_by(held, place, run.at, m, start);
    Running { new, at: m, holder }
}

// The record of 72 that is there, with the rest behind its RPP line.
fn put_both(sign: bool, l: &[u8], rest: &[u8], out: &mut [u8], at: usize) -> Step
    requires l_len_bound { (length l.now ≤ 10000) × (length rest.now ≤ 10000) × (at + 200000 ≤ near) × (tagged tag_72 (record_of l.now) ≡ true) }
    requires l_value { (good Mt103 sign (record_of l.now) ≡ true) × (record_stops Mt103 sign (record_of l.now) ≡ Fine) × (fits_in sign BehindRpp [] rest.now ≡ true) × (writing sign rest.now ≡ said (bank_of sign rest.now)) }
    ensures { Adds Fine false (with_cr_lf (lined (field_for Mt103 sign (halved [] rest.now (record_of l.now))))) out.old at result out.new × Within result 10000 (at + 400 * (length l.now + 1)) }
{
    let n = put_tag(b"72", out, at);
    let m = put_rpp(l, RPP, l.len(), out, n)?;
    put_rest(sign, DetailsField::BehindRpp, rest, out, m)
}

// The record of 70 with the first half of its text.
fn put_first(sign: bool, half: &[u8], out: &mut [u8], at: usize) -> Step
    requires { (length half.now ≤ 10000) × (at + 200000 ≤ near) × (tagged tag_70 (record_of half.now) ≡ true) × (good Mt103 sign (record_of half.now) ≡ true) }
    ensures { Adds (record_stops Mt103 sign (record_of half.now)) (record_crowded Mt103 sign (record_of half.now)) (with_cr_lf (lined (field_for Mt103 sign (record_of half.now)))) out.old at result out.new × Within result (length half.now) (at + 400) }
{
    let n = put_tag(b"70", out, at);
    put_purpose(sign, DetailsField::In70, half, DIGITS, out, n)
}

// A record, without its LF, as it runs on.
fn put_half(sign: bool, l: &[u8], half: &[u8], rest: &[u8], out: &mut [u8], at: usize) -> Step
    requires { (length l.now ≤ 10000) × (at + 200000 ≤ near) × Halves sign half.now rest.now × Here sign half.now rest.now (record_of l.now) }
    ensures { Adds Fine false (with_cr_lf (lined (field_for Mt103 sign (halved (one_in half.now) rest.now (record_of l.now))))) out.old at result out.new × Within result 10000 (at + 400 * (length l.now + 1)) }
{
    let tag = tag_of(l);
    if tag == TAG_70 {
        return put_first(sign, half, out, at);
    }
    if tag == TAG_72 {
        return put_both(sign, l, rest, out, at);
    }
    put_record(Form::Mt103, sign, l, out, at)
}

// A new 72: it has no RPP line.
fn put_new(sign: bool, rest: &[u8], out: &mut [u8], at: usize) -> Step
    requires { (length rest.now ≤ 10000) × (at + 200000 ≤ near) × (fits_in sign In72 [] rest.now ≡ true) × (writing sign rest.now ≡ said (bank_of sign rest.now)) }
    ensures { Adds Fine false (with_cr_lf (lined (field_for Mt103 sign (new_note rest.now)))) out.old at result out.new × Within result 10000 (at + 400) }
{
    let n = put_tag(b"72", out, at);
    put_rest(sign, DetailsField::In72, rest, out, n)
}

// The new 72 that is to come stands before this record: the first 77B.
fn comes_before(new: bool, l: &[u8]) -> bool
    ensures { result ≡ comes_before new (record_of l.now) }
{
    new && tag_of(l) == TAG_77B
}

// The record that starts at i, without its LF, as it runs on, and perhaps a new 72 before it.
fn put_next(
    sign: bool,
    i: usize,
    l: &[u8],
    half: &[u8],
    rest: &[u8],
    start: usize,
    place: usize,
    run: Running,
    out: &mut [u8],
) -> Running
    requires { (length l.now ≤ 10000) × (run.at + 1000000 ≤ near) × Halves sign half.now rest.now × Here sign half.now rest.now (record_of l.now) × (run.new ≡ true → fits_in sign In72 [] rest.now ≡ true) }
    ensures { FieldsPut (spread Mt103 sign (run_here run.new (one_in half.now) rest.now (record_of l.now))) (sources_here run.new start i (record_of l.now)) place out.old run result out.new × (result.new ≡ still_new run.new (record_of l.now)) × (result.at ≤ run.at + 800 * (length l.now + 1)) }
{
    let at = run.at;
    let new = run.new;
    if comes_before(new, l) {
        let note = put_new(sign, rest, out, at);
        let between = onward(run, place, note, start, false);
        let behind = between.at;
        let own = put_half(sign, l, half, rest, out, behind);
        return onward(between, place, own, i, false);
    }
    let step = put_half(sign, l, half, rest, out, at);
    onward(run, place, step, i, new)
}

// Behind the last record: a new 72 that is still to come.
fn put_last(
    sign: bool,
    rest: &[u8],
    start: usize,
    place: usize,
    run: Running,
    out: &mut [u8],
) -> Running
    requires { (length rest.now ≤ 10000) × (run.at + 200000 ≤ near) × (run.new ≡ true → fits_in sign In72 [] rest.now ≡ true) × (writing sign rest.now ≡ said (bank_of sign rest.now)) }
    ensures { FieldsPut (spread Mt103 sign (pick run.new (new_note rest.now ∷ []) [])) (pick run.new (start ∷ []) []) place out.old run result out.new × (result.at ≤ run.at + 400) }
{
    if !run.new {
        return run;
    }
    let note = put_new(sign, rest, out, run.at);
    onward(run, place, note, start, false)
}

// The whole message of a sheet of type 103 whose details run on, and the record that holds the byte at a place of it. Half is the record of 70,
// which starts at `start`, cut off behind the first half of its text; rest is the second. The first record of the sheet has six bytes.
pub(crate) fn put_run(
    s: &[u8],
    sign: bool,
    half: &[u8],
    rest: &[u8],
    start: usize,
    new: bool,
    place: usize,
    out: &mut [u8],
) -> Running
    requires s_len_bound { (length s.now ≤ 10000) × (7 ≤ length s.now) × (bad_sheet_line Mt103 sign 7 (pieces_at 10 s.now 7) ≡ Fine) }
    requires halves { Halves sign half.now rest.now × AllHold (Here sign half.now rest.now) (records_at s.now 7) × (new ≡ true → fits_in sign In72 [] rest.now ≡ true) }
    ensures { Puts (message (spread Mt103 sign (run_as new (one_in half.now) rest.now (records_at s.now 7)))) out.old 0 result.at out.new × (result.holder ≡ holder_in place 5 (sources new start 7 (records_at s.now 7)) (spread Mt103 sign (run_as new (one_in half.now) rest.now (records_at s.now 7)))) }
{
    put(out, 0, b"{4:\r\n");
    let mut run = Running {
        new,
        at: 5,
        holder: None,
    };
    for (i, record) in Walk::new(s, 7) {
        run = put_next(sign, i, record, half, rest, start, place, run, out);
    }
    let last = put_last(sign, rest, start, place, run, out);
    let n = last.at;
    let holder = last.holder;
    put(out, n, b"-}");
    Running {
        new: false,
        at: n + 2,
        holder,
    }
}
