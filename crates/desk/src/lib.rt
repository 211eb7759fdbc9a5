// The calls that the archive exports, each with its answer as one number. The crate `desk_c` exports them.
#![tactic(auto)]

ghost use Rattle.std.specs.Prelude.{◌≡◌};
ghost use Rattle.types.specs.Form.{form_of};
ghost use Rattle.message.specs.Calls.{span_of, amount_of, day_of};
ghost use Rattle.desk.specs.Answer.{refused_word, word, checked_word, span_word, amount_word, day_word, is_on};
ghost use Rattle.desk.specs.Exports.{ReadWord, WrittenWord, CheckWord, MessageWord, SheetWord};
ghost use Rattle.desk.specs.Sizes.{Fits, SmallOutcome, SmallCheck, SmallSpan, SmallAmount, SmallDay};

use base::{Outcome, Refusal};
use message::{Accepted, Day, Span};
use types::forms::form_of;

fn is_on(sign: u32) -> bool
    ensures { result ≡ is_on sign }
{
    sign != 0
}

fn refused(r: Refusal) -> u64
    requires { Fits r.number r.place }
    ensures { result ≡ refused_word r.number r.place }
{
    9223372036854775808 + r.number as u64 * 4294967296 + r.place as u64
}

// The answer as one number.
fn word_of(o: Outcome) -> u64
    requires { SmallOutcome o }
    ensures { result ≡ word o }
{
    o.map_or_else(refused, |n| n as u64)
}

fn checked_of(c: Result<Accepted, Refusal>) -> u64
    requires { SmallCheck c }
    ensures { result ≡ checked_word c }
{
    c.map_or_else(refused, |a| a.fields as u64 + a.present as u64 * 65536)
}

fn span_of(s: Option<Span>) -> u64
    requires { SmallSpan s }
    ensures { result ≡ span_word s }
{
    s.map_or(
        0,
        |s| s.start as u64 * 4294967296 + (s.end - s.start) as u64,
    )
}

fn amount_of(a: Result<u64, Refusal>) -> u64
    requires { SmallAmount a }
    ensures { result ≡ amount_word a }
{
    a.unwrap_or_else(refused)
}

fn day_of(d: Result<Day, Refusal>) -> u64
    requires { SmallDay d }
    ensures { result ≡ day_word d }
{
    d.map_or_else(
        refused,
        |d| d.year as u64 * 10000 + d.month as u64 * 100 + d.day as u64,
    )
}

pub fn desk_read_text(sign: u32, bank: &[u8], out: &mut [u8]) -> u64
    ensures { ReadWord sign bank.now out.old result out.new }
{
    let o = alphabets::read_text(is_on(sign), bank, out);
    word_of(o)
}

pub fn desk_write_text(sign: u32, text: &[u8], out: &mut [u8]) -> u64
    ensures { WrittenWord sign text.now out.old result out.new }
{
    let o = alphabets::write_text(is_on(sign), text, out);
    word_of(o)
}

// The check of a message: the list of its fields.
pub fn desk_check(kind: u32, message: &[u8], list: &mut [u32]) -> u64
    ensures { CheckWord (form_of kind) message.now list.old result list.new }
{
    let c = message::check::check(form_of(kind), message, list);
    checked_of(c)
}

// Where the content of a place stands.
pub fn desk_content(kind: u32, message: &[u8], place: u32) -> u64
    ensures { result ≡ span_word (span_of (form_of kind) message.now place) }
{
    let s = message::content::span(form_of(kind), message, place as usize);
    span_of(s)
}

pub fn desk_kopecks(kind: u32, message: &[u8]) -> u64
    ensures { result ≡ amount_word (amount_of (form_of kind) message.now) }
{
    let a = message::paid::kopecks(form_of(kind), message);
    amount_of(a)
}

pub fn desk_date(kind: u32, message: &[u8]) -> u64
    ensures { result ≡ day_word (day_of (form_of kind) message.now) }
{
    let d = message::paid::date(form_of(kind), message);
    day_of(d)
}

// A clerk's sheet as a message.
pub fn desk_to_message(sheet: &[u8], out: &mut [u8]) -> u64
    ensures { MessageWord sheet.now out.old result out.new }
{
    let o = writer::to_message::to_message(sheet, out);
    word_of(o)
}

// A message as a clerk's sheet.
pub fn desk_to_sheet(kind: u32, message: &[u8], out: &mut [u8]) -> u64
    ensures { SheetWord (form_of kind) message.now out.old result out.new }
{
    let o = sheets::to_sheet::to_sheet(form_of(kind), message, out);
    word_of(o)
}
