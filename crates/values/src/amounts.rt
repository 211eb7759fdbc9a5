// The amount of 32A in kopecks, and its date.
ghost use Rattle.std.specs.Prelude.{◌≡◌, ◌<◌};
ghost use Rattle.base.specs.Bytes.{digit};
ghost use Rattle.contents.specs.Words.{Run};
ghost use Rattle.values.specs.Number.{worth, number};
ghost use Rattle.values.specs.Money.{fraction};
ghost use Rattle.values.specs.Answers.{kopecks_of, date_of};

use super::days::{date_number, worth_of};
use contents::lines::{COMMA, DATE, MONEY, payment};

// A rouble in kopecks.
const ROUBLE: u64 = 100;

fn long_worth(x: u8) -> u64
    ensures { (result ≡ worth x) × (result < 208) }
{
    u64::from(worth_of(x))
}

// The number that digits stand for.
fn number_of(s: &[u8]) -> u64
    requires { Run digit 0 14 s.now }
    ensures { result ≡ number s.now }
{
    let mut n: u64 = 0;
    for x in s {
        n = n * 10 + long_worth(*x);
    }
    n
}

// The kopecks of the digits behind the comma.
fn fraction_of(s: &[u8]) -> u64
    ensures { (result ≡ fraction s.now) × (result < 2300) }
{
    match s {
        [] => 0,
        [tens] => long_worth(*tens) * 10,
        [tens, ones, ..] => long_worth(*tens) * 10 + long_worth(*ones),
    }
}

// The kopecks of a content of 32A; 0 for any other.
pub fn kopecks_of(content: &[u8]) -> u64
    ensures { result ≡ kopecks_of content.now }
{
    let Some(paid) = payment(content) else {
        return 0;
    };
    let comma = paid.whole + MONEY;
    let behind = COMMA + comma;
    let decimals = &content[behind..behind + paid.decimals];
    number_of(&content[MONEY..comma]) * ROUBLE + fraction_of(decimals)
}

// The date of a content of 32A, YYYYMMDD; 0 for any other.
pub fn date_of(content: &[u8]) -> u32
    ensures { result ≡ date_of content.now }
{
    let Some(_) = payment(content) else {
        return 0;
    };
    date_number(&content[..DATE])
}
