// Bytes looked at, looked through, and put into lent room.
ghost use Rattle.std.specs.Prelude.{◌≡◌, ℕ, Bool, true, ◌+◌, ◌≤◌, ◌<◌, length, take, drop};
ghost use Rattle.std.specs.List.{position_or_len};
ghost use Rattle.base.specs.Bytes.{digit, capital, lead, same};
ghost use Rattle.base.specs.Search.{Tests};
ghost use Rattle.base.specs.Calls.{placed};

// The digit 0 as a number: what a digit is above its value.
pub const ZERO: u32 = b'0' as u32;

pub fn wide(x: u8) -> u32
    ensures { (result ≡ x) × (result < 256) }
{
    u32::from(x)
}

pub fn is_digit(x: u8) -> bool
    ensures { result ≡ digit x }
{
    x.is_ascii_digit()
}

pub fn is_capital(x: u8) -> bool
    ensures { result ≡ capital x }
{
    x.is_ascii_uppercase()
}

// A search is lent `stops`, which tells at which bytes it stops. No byte of the run is one: there is no way out before the
// last, so that they are tested at once.
fn is_clear<F: Fn(u8) -> bool>(stops: &F, run: &[u8]) -> bool
    requires { F.IsAlwaysCallable stops.now }
    ensures { result ≡ true → (test : ℕ → Bool) → Tests (F.post stops.now) test → position_or_len test run.now ≡ length run.now }
{
    run.iter().fold(true, |clear, x| clear & !stops(*x))
}

// The place from `at` on up to which all is clear, as far as whole runs of n bytes go.
fn past_clear<F: Fn(u8) -> bool>(n: usize, stops: &F, s: &[u8], at: usize) -> usize
    requires { (0 < n) × (at ≤ length s.now) × F.IsAlwaysCallable stops.now }
    ensures within { result ≤ length s.now }
    ensures passed { (test : ℕ → Bool) → Tests (F.post stops.now) test → at + position_or_len test (drop at s.now) ≡ result + position_or_len test (drop result s.now) }
{
    // Stays: tried and slower. Over `chunks_exact` or `split_at_checked` a search takes a fifth more instructions.
    let mut i = at;
    while n <= s.len() - i && is_clear(stops, &s[i..i + n]) {
        i += n;
    }
    i
}

// How many bytes stand before the first that stops the search.
fn before<F: Fn(u8) -> bool>(stops: &F, s: &[u8]) -> usize
    requires { F.IsAlwaysCallable stops.now }
    ensures within { result ≤ length s.now }
    ensures place { (test : ℕ → Bool) → Tests (F.post stops.now) test → result ≡ position_or_len test s.now }
{
    s.iter().position(|x| stops(*x)).unwrap_or(s.len())
}

// Where the first byte from `at` on stands that stops the search, or the end: by runs of n bytes, then a byte at a time.
pub(crate) fn search_from<F: Fn(u8) -> bool>(n: usize, stops: &F, s: &[u8], at: usize) -> usize
    requires { (0 < n) × (at ≤ length s.now) × F.IsAlwaysCallable stops.now }
    ensures { (test : ℕ → Bool) → Tests (F.post stops.now) test → result ≡ at + position_or_len test (drop at s.now) }
{
    let i = past_clear(n, stops, s, at);
    i + before(stops, &s[i..])
}

// How many bytes at the front have class 0: four bytes and one byte at a time.
pub fn lead_of(t: &[u8; 256], s: &[u8]) -> usize
    ensures { result ≡ lead t.now s.now }
{
    search_from(4, &|x| t[usize::from(x)] != 0, s, 0)
}

// The part put into the room from `at` on. Where it does not fit, the room stays as it is.
pub fn put(out: &mut [u8], at: usize, part: &[u8])
    ensures { out.new ≡ placed out.old at part.now }
{
    if at <= out.len() && part.len() <= out.len() - at {
        // Stays: a store for each byte. By `copy_from_slice` the archive takes memmove from outside.
        for k in 0..part.len() {
            out[at + k] = part[k];
        }
    }
}

// The first n bytes, or all where there are fewer.
pub fn front(s: &[u8], n: usize) -> &[u8]
    ensures { result.now ≡ take n s.now }
{
    &s[..n.min(s.len())]
}

// What stands behind the first n bytes; nothing where there are fewer.
pub fn past(s: &[u8], n: usize) -> &[u8]
    ensures { result.now ≡ drop n s.now }
{
    &s[n.min(s.len())..]
}

pub fn is_same(a: &[u8], b: &[u8]) -> bool
    ensures { result ≡ same a.now b.now }
{
    a == b
}
