// Where the details of a 103 are cut that run on: the one record of 70, and what its text comes to.
ghost use Rattle.std.specs.Prelude.{◌≡◌, true, ◌≤◌, length};
ghost use Rattle.base.specs.Verdicts.{Fine};
ghost use Rattle.fields.specs.Field.{tag_of};
ghost use Rattle.types.specs.declared.Form.TheVariants.{Mt103};
ghost use Rattle.types.specs.Sign.{first_line};
ghost use Rattle.records.specs.Record.{record_of};
ghost use Rattle.records.specs.Found.{parts_in, pieces_at, tag_number, bad_sheet_line};
ghost use Rattle.records.specs.Rule19.{good};
ghost use Rattle.details.specs.Front.{code};
ghost use Rattle.runon.specs.Run.{run_for};
ghost use Rattle.runon.specs.RunOn.{tag_70, tagged, second_part};
ghost use Rattle.writer.specs.Steps.{near, records_at};
ghost use Rattle.writer.specs.Runs.{none_seen, seeing, seen_from, note_for, cut_for, Passes};

use super::Cutting;
use super::purposes::put_code;
use super::walk::Walk;
use base::marks::mark_at;
use contents::whole::SIGNED_CODE;
use details::DetailsField;
use records::tags::tag_number;
use roles::lengths::MOST;
use runon::{Run, run_on};
use types::tags::{TAG_70, TAG_72};

// In a record of 70 the VO digits stand behind its tag and a tab, and the text behind these and another tab.
pub(crate) const DIGITS: usize = 3;

const DIGITS_END: usize = 8;

const TEXT: usize = 9;

// The tag of a record, without its LF, as one number.
pub(crate) fn tag_of(l: &[u8]) -> u32
    ensures { result ≡ tag_number (tag_of (record_of l.now)) }
{
    let t = mark_at(b'\t', l, 0);
    tag_number(&l[..t])
}

// Records of 70 and of 72: how many, and where the last 70 starts.
#[derive(Clone, Copy)]
struct Seen {
    details: usize,
    notes: usize,
    start: usize,
}

// A record more, which starts at i.
fn see(seen: Seen, i: usize, l: &[u8]) -> Seen
    requires { (seen.details ≤ near) × (seen.notes ≤ near) }
    ensures { result ≡ seeing seen i (record_of l.now) }
{
    let tag = tag_of(l);
    if tag == TAG_70 {
        return Seen {
            details: seen.details + 1,
            notes: seen.notes,
            start: i,
        };
    }
    if tag == TAG_72 {
        return Seen {
            details: seen.details,
            notes: seen.notes + 1,
            start: seen.start,
        };
    }
    seen
}

// All records behind the first, which has six bytes.
fn see_all(s: &[u8]) -> Seen
    requires { (length s.now ≤ 10000) × (7 ≤ length s.now) × Passes s.now 7 }
    ensures { result ≡ seen_from none_seen 7 (records_at s.now 7) }
{
    let mut seen = Seen {
        details: 0,
        notes: 0,
        start: 0,
    };
    for (i, record) in Walk::new(s, 7) {
        seen = see(seen, i, record);
    }
    seen
}

// The room for the rest of the text: a 72 of its own, or one that has an RPP line.
fn note_field(new: bool) -> DetailsField
    ensures { result ≡ note_for new }
{
    if new {
        DetailsField::In72
    } else {
        DetailsField::BehindRpp
    }
}

// What the text of a record of 70 comes to.
fn run_of(sign: bool, l: &[u8], new: bool) -> Run
    requires { (length l.now ≤ 10000) × (good Mt103 sign (record_of l.now) ≡ true) × (tagged tag_70 (record_of l.now) ≡ true) }
    ensures { result ≡ run_for sign (code sign (first_line (parts_in (record_of l.now)))) (note_for new) (second_part (parts_in (record_of l.now))) }
{
    let mut line = [0u8; SIGNED_CODE];
    let front = put_code(sign, &l[DIGITS..DIGITS_END], &mut line);
    run_on(sign, &line[..front], note_field(new), &l[TEXT..])
}

// The cut of a sheet that 19 lets pass. Nothing runs on unless there is one 70 and at most one 72. A text of more bytes than both fields take is not
// looked at, since no bank text is shorter than its text.
pub(crate) fn find_cut(s: &[u8], sign: bool) -> Option<Cutting>
    requires { (length s.now ≤ 10000) × (7 ≤ length s.now) × (bad_sheet_line Mt103 sign 7 (pieces_at 10 s.now 7) ≡ Fine) }
    ensures { result ≡ cut_for sign (records_at s.now 7) }
{
    let seen = see_all(s);
    if seen.details != 1 {
        return None;
    }
    if 1 < seen.notes {
        return None;
    }
    let start = seen.start;
    let new = seen.notes == 0;
    let e = mark_at(b'\n', s, start);
    if start + TEXT + MOST < e {
        return None;
    }
    let Run::Cut(k) = run_of(sign, &s[start..e], new) else {
        return None;
    };
    Some(Cutting {
        start,
        cut: start + TEXT + k,
        end: e,
        new,
    })
}
