// Days of the calendar, and dates of six digits.
ghost use Rattle.std.specs.Prelude.{◌≡◌, ◌+◌, ◌*◌, ◌≤◌, ◌<◌, length};
ghost use Rattle.base.specs.Bytes.{byte};
ghost use Rattle.values.specs.Number.{worth};
ghost use Rattle.values.specs.Day.{leap, days_in, is_day, year_of, real_day, dated};
ghost use Rattle.values.specs.Steps.{DayRead};

// Where the month and the day stand in a date of six digits.
const MONTH_AT: usize = 2;

const DAY_AT: usize = 4;

const FEBRUARY: u32 = 2;

const DECEMBER: u32 = 12;

#[derive(Clone, Copy)]
struct Day {
    year: u32,
    month: u32,
    day: u32,
}

// What a digit is worth; 0 for a byte below the digits.
pub(crate) fn worth_of(x: u8) -> u32
    ensures { (result ≡ worth x) × (result < 208) }
{
    u32::from(x.saturating_sub(b'0'))
}

fn two_at(s: &[u8], i: usize) -> u32
    requires { i + 2 ≤ length s.now }
    ensures { (result ≡ worth (byte s.now i) * 10 + worth (byte s.now (i + 1))) × (result < 2300) }
{
    worth_of(s[i]) * 10 + worth_of(s[i + 1])
}

fn year_of(yy: u32) -> u32
    requires { yy < 2300 }
    ensures { (result ≡ year_of yy) × (result < 4300) }
{
    match yy {
        80..=99 => 1900 + yy,
        _ => 2000 + yy,
    }
}

fn is_leap(year: u32) -> bool
    ensures { result ≡ leap year }
{
    year % 4 == 0 && (year % 100 != 0 || year % 400 == 0)
}

fn days_in(year: u32, month: u32) -> u32
    ensures { result ≡ days_in year month }
{
    match month {
        FEBRUARY => { if is_leap(year) { 29 } else { 28 } }
        4 | 6 | 9 | 11 => 30,
        _ => 31,
    }
}

fn is_date(year: u32, month: u32, day: u32) -> bool
    ensures { result ≡ is_day year month day }
{
    if month < 1 || DECEMBER < month || day < 1 {
        return false;
    }
    day <= days_in(year, month)
}

// The year, the month and the day of six digits.
fn day_of(s: &[u8]) -> Day
    requires { length s.now ≡ 6 }
    ensures { DayRead s.now result }
{
    Day {
        year: year_of(two_at(s, 0)),
        month: two_at(s, MONTH_AT),
        day: two_at(s, DAY_AT),
    }
}

// Whether six digits are a day.
pub(crate) fn is_day(s: &[u8]) -> bool
    requires { length s.now ≡ 6 }
    ensures { result ≡ real_day s.now }
{
    let d = day_of(s);
    is_date(d.year, d.month, d.day)
}

// Six digits as one number, YYYYMMDD.
pub(crate) fn date_number(s: &[u8]) -> u32
    requires { length s.now ≡ 6 }
    ensures { result ≡ dated s.now }
{
    let d = day_of(s);
    d.year * 10000 + d.month * 100 + d.day
}
