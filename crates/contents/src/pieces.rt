// The pieces of lines: a word, digits, a run of digits.
ghost use Rattle.std.specs.Prelude.{◌≡◌, ◌+◌, ◌≤◌, length};
ghost use Rattle.contents.specs.Words.{Digits, Capitals, CapitalsOrDigits, capital_or_digit};
ghost use Rattle.base.specs.Says.{Says};
ghost use Rattle.contents.specs.Answers.{cut, Leads};
ghost use Rattle.contents.specs.Tests.{starts, word_and_digit};
ghost use Rattle.contents.specs.Parts.{opens_rpp};

use base::bytes::{is_capital, is_digit};

// Whether the word stands from i on.
// Stays: byte by byte, here and in `is_just`, as `==` of slices is a call for each word: a check runs 1 percent more instructions with it.
pub(crate) fn has_word(s: &[u8], i: usize, w: &[u8]) -> bool
    requires { i + length w.now ≤ length s.now }
    ensures { Says (cut i (length w.now) s.now ≡ w.now) result }
{
    for k in 0..w.len() {
        if s[i + k] != w[k] {
            return false;
        }
    }
    true
}

// Whether n digits stand from i on: no way out before the last, so that they are tested at once.
pub(crate) fn are_digits(s: &[u8], i: usize, n: usize) -> bool
    requires { i + n ≤ length s.now }
    ensures { Says (Digits n (cut i n s.now)) result }
{
    s[i..i + n].iter().fold(true, |fine, b| fine & is_digit(*b))
}

pub(crate) fn are_capitals(s: &[u8], i: usize, n: usize) -> bool
    requires { i + n ≤ length s.now }
    ensures { Says (Capitals n (cut i n s.now)) result }
{
    s[i..i + n].iter().all(|b| is_capital(*b))
}

pub(crate) fn are_capitals_or_digits(s: &[u8], i: usize, n: usize) -> bool
    requires { i + n ≤ length s.now }
    ensures { Says (CapitalsOrDigits n (cut i n s.now)) result }
{
    s[i..i + n].iter().all(|b| is_capital(*b) || is_digit(*b))
}

// How many digits stand from i on, and no more than n.
pub(crate) fn digits_from(s: &[u8], i: usize, n: usize) -> usize
    requires { i ≤ length s.now }
    ensures { Leads i n s.now result }
{
    s[i..].iter().take(n).take_while(|b| is_digit(**b)).count()
}

// Whether the text is just this word.
pub fn is_just(s: &[u8], w: &[u8]) -> bool
    ensures { Says (s.now ≡ w.now) result }
{
    s.len() == w.len() && has_word(s, 0, w)
}

// Whether a text begins with this word and a digit.
pub fn is_numbered(s: &[u8], word: &[u8]) -> bool
    ensures { result ≡ word_and_digit word.now s.now }
{
    let n = word.len();
    n < s.len() && s.starts_with(word) && is_digit(s[n])
}

// Whether a line, or a content, begins as an RPP line does.
pub fn opens_rpp(s: &[u8]) -> bool
    ensures { result ≡ opens_rpp s.now }
{
    s.starts_with(b"/RPP/")
}
