// A stored list: records one behind the other, each a line of words with one space between and then raw bytes.
#![tactic(auto)]

ghost use Rattle.std.specs.Prelude.{◌≡◌, ◌<◌, ◌≤◌, length, take, drop, IfSome};
ghost use Rattle.std.specs.Option.{option_and_then};
ghost use Rattle.stored.specs.Words.{before, rest_of, word_of, digit_of, number_of};
ghost use Rattle.stored.specs.Lists.{line_at, behind_at, body_at};

use base::bytes::{front, is_digit, past};
use base::marks::mark_at;

// The raw bytes of a record: where they begin, how many there are, where its line says so, and the place behind the LF that ends
// them, where it does.
#[derive(Clone, Copy)]
pub struct Body {
    pub start: usize,
    pub size: Option<usize>,
    pub next: Option<usize>,
}

// The text before the first mark, or all of it.
pub fn up_to(mark: u8, s: &[u8]) -> &[u8]
    ensures { result.now ≡ before mark s.now }
{
    front(s, mark_at(mark, s, 0))
}

// The text behind the first mark; nothing where there is none.
fn past_mark(mark: u8, s: &[u8]) -> &[u8]
    ensures { result.now ≡ rest_of mark 1 s.now }
{
    past(s, mark_at(mark, s, 0) + 1)
}

// The text behind so many marks; nothing where there are fewer.
pub fn rest(mark: u8, s: &[u8], marks: usize) -> &[u8]
    ensures { result.now ≡ rest_of mark marks s.now }
{
    let mut left = s;
    for _ in 0..marks {
        left = past_mark(mark, left);
    }
    left
}

// The word behind so many marks, up to the next.
pub fn word(mark: u8, s: &[u8], marks: usize) -> &[u8]
    ensures { result.now ≡ word_of mark marks s.now }
{
    up_to(mark, rest(mark, s, marks))
}

// The value of a digit.
fn digit_of(b: u8) -> Option<usize>
    ensures value { result ≡ digit_of b }
    ensures small { IfSome result (λ d. d < 10) }
{
    if is_digit(b) {
        Some(usize::from(b - b'0'))
    } else {
        None
    }
}

// A number of at most ten digits.
pub fn number(s: &[u8]) -> Option<usize>
    ensures { result ≡ number_of s.now }
{
    if s.is_empty() {
        return None;
    }
    let mut n = 0;
    for b in s {
        let d = digit_of(*b)?;
        if n > 999999999 {
            return None;
        }
        n = n * 10 + d;
    }
    Some(n)
}

// The n bytes from a place on, or as many as there are.
pub fn cut(list: &[u8], at: usize, n: usize) -> &[u8]
    ensures { result.now ≡ take n (drop at list.now) }
{
    front(past(list, at), n)
}

// The line from a place on, without its LF.
pub fn line_at(list: &[u8], at: usize) -> &[u8]
    ensures { result.now ≡ line_at list.now at }
{
    up_to(b'\n', past(list, at))
}

// The place behind n bytes and the LF that ends them, where one stands there.
pub fn behind(list: &[u8], at: usize, n: usize) -> Option<usize>
    ensures place { result ≡ behind_at list.now at n }
    ensures within { IfSome result (λ place. (at < place) × (place ≤ length list.now)) }
{
    let end = at.checked_add(n)?;
    let mark = *list.get(end)?;
    if mark == b'\n' { Some(end + 1) } else { None }
}

// The place behind the raw bytes, where it is known how many they are.
fn behind_body(list: &[u8], start: usize, size: Option<usize>) -> Option<usize>
    ensures place { result ≡ option_and_then (behind_at list.now start) size }
    ensures within { IfSome result (λ place. (start < place) × (place ≤ length list.now)) }
{
    behind(list, start, size?)
}

// The raw bytes of the record at a place. The last word of its line, behind so many spaces, says how many they are.
pub fn body_at(list: &[u8], at: usize, spaces: usize) -> Option<Body>
    ensures body { result ≡ body_at list.now at spaces }
    ensures within { IfSome result (λ b. IfSome b.next (λ next. (at < next) × (next ≤ length list.now))) }
{
    let head = line_at(list, at);
    let start = behind(list, at, head.len())?;
    let size = number(rest(b' ', head, spaces));
    Some(Body {
        start,
        size,
        next: behind_body(list, start, size),
    })
}
