// Details of a 103 that run on from field 70 into field 72: where their text is cut.
#![tactic(auto)]

ghost use Rattle.std.specs.Prelude.{◌≡◌, ℕ, ◌+◌, ◌-◌, ◌≤◌, ◌<◌, IfOk, length};
ghost use Rattle.base.specs.Calls.{placed, said};
ghost use Rattle.alphabets.specs.Best.{writing};
ghost use Rattle.fields.specs.Frame.{limit};
ghost use Rattle.runon.specs.Run.{bank_of, last_cut, run_for};
ghost use Rattle.runon.specs.Steps.{room_70, fit_of, tried_at};

use alphabets::parts::Stop;
use alphabets::put_written;
use base::bytes::put;
use details::{DetailsField, size_of};
use roles::lengths::MOST;

// What the lines of 70 hold.
const ROOM_70: usize = 140;

// What the lines of any details field hold at most.
const ROOM: usize = 195;

// What a text comes to: a byte of it can't be written; it goes into 70 whole; it is cut behind its first bytes, so many; or it fits in no way.
#[derive(Clone, Copy)]
pub enum Run {
    Stuck(usize),
    Whole,
    Cut(usize),
    Unfit,
}

// The bank text of a text put from `at` on, where there is room for it; answers how long it is.
// Stays: 0 is a length here, that of the text put where none can be written.
fn put_bank(sign: bool, text: &[u8], out: &mut [u8], at: usize) -> usize
    requires { length text.now ≤ limit }
    ensures { (result ≡ length (bank_of sign text.now)) × (result ≤ 20000) × (out.new ≡ placed out.old at (bank_of sign text.now)) }
{
    put_written(sign, text, out, at).unwrap_or(0)
}

// How long a front and the bank text behind it are: Ok where they go into the lines of a field, else Err.
fn fit_in(sign: bool, into: DetailsField, front: &[u8], text: &[u8]) -> Result<usize, usize>
    requires { (length text.now ≤ limit) × (length front.now ≤ room_70) }
    ensures value { result ≡ fit_of sign into front.now text.now }
    ensures bound { IfOk result (λ n. n ≤ 195) }
{
    let least = front.len();
    let mut line = [0u8; ROOM];
    put(&mut line, 0, front);
    let n = least + put_bank(sign, text, &mut line, least);
    if n <= ROOM && size_of(into, least, &line[..n]).is_some() {
        return Ok(n);
    }
    Err(n)
}

// A cut that is tried: its first half is so many bytes too long for 70; or the text may be cut there, or not.
#[derive(Clone, Copy)]
enum Tried {
    Over(usize),
    Good,
    Bad,
}

// The cut to go back to from k, whose first half is n bytes too long: n characters take at most n + n + 2 bytes.
fn back_from(k: usize, n: usize) -> usize
    requires { 0 < k }
    ensures { (result < k) × ((j : ℕ) → result < j → j < k → (k - j) + (k - j) + 2 < n) }
{
    k.saturating_sub((n / 2).saturating_sub(1).max(1))
}

// Details that may run on: the code, which 70 can hold; the 72 that takes the rest; and the text, which can be written.
#[derive(Clone, Copy)]
struct Details<'a> {
    sign: bool,
    front: &'a [u8],
    note: DetailsField,
    text: &'a [u8],
    ghost held: { length front.now ≤ room_70 },
    ghost short: { length text.now ≤ limit },
    ghost written: { writing sign text.now ≡ said (bank_of sign text.now) },
}

impl Details<'_> {
    fn try_at(self, k: usize) -> Tried
        requires { (0 < k) × (k < length self.text.now) }
        ensures { result ≡ tried_at self.entry.sign self.entry.front.now self.entry.note self.entry.text.now k }
    {
        let one = match fit_in(self.sign, DetailsField::In70, self.front, &self.text[..k]) {
            Ok(n) => n,
            Err(n) if ROOM_70 < n => return Tried::Over(n - ROOM_70),
            Err(_) => return Tried::Bad,
        };
        match fit_in(self.sign, self.note, b"", &self.text[k..]) {
            Ok(two) if one + two <= MOST => Tried::Good,
            _ => Tried::Bad,
        }
    }

    // The last cut behind `top` bytes or fewer.
    // Stays: the way down is no count, since a cut that is too long lets others be passed over.
    fn last_cut(self, top: usize) -> Run
        requires { top < length self.text.now }
        ensures { result ≡ last_cut self.entry.sign self.entry.front.now self.entry.note self.entry.text.now top }
    {
        let mut k = top;
        while 0 < k {
            match self.try_at(k) {
                Tried::Good => return Run::Cut(k),
                Tried::Bad => k -= 1,
                Tried::Over(n) => k = back_from(k, n),
            }
        }
        Run::Unfit
    }

    // The text doesn't go into 70 whole, and its bank text has `size` bytes. Both halves come to no less, and no bank text is shorter than its text: so
    // few cuts are tried.
    fn cut(self, size: usize) -> Run
        requires { (size ≤ 20000) × (size ≡ length (bank_of self.sign self.text.now)) }
        ensures { result ≡ last_cut self.entry.sign self.entry.front.now self.entry.note self.entry.text.now (length self.entry.text.now) }
    {
        if MOST < self.front.len() + size {
            return Run::Unfit;
        }
        let Some(n) = self.text.len().checked_sub(1) else {
            return Run::Unfit;
        };
        self.last_cut(n.min(ROOM_70 - self.front.len()))
    }
}

// The text measured first: of one that is too long for 70 no byte is put.
pub fn run_on(sign: bool, front: &[u8], note: DetailsField, text: &[u8]) -> Run
    ensures { result ≡ run_for sign front.now note text.now }
{
    match put_written(sign, text, &mut [], 0) {
        Err(Stop::At(k)) => Run::Stuck(k),
        Err(Stop::Long) => Run::Unfit,
        Ok(n) => {
            if ROOM_70 < front.len() {
                return Run::Unfit;
            }
            if front.len() + n <= ROOM_70 && fit_in(sign, DetailsField::In70, front, text).is_ok() {
                return Run::Whole;
            }
            let d = Details {
                sign,
                front,
                note,
                text,
            };
            d.cut(n)
        }
    }
}
