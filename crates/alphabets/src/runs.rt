// Runs of bytes by their values in a lent table: how far one goes, and what it stands for put into lent room.
ghost use Rattle.std.specs.Prelude.{◌≡◌, false, ◌+◌, ◌≤◌, leb, length, get_or, position};
ghost use lib.Seq.{sets};
ghost use Rattle.alphabets.specs.Runs.{floor_of, heard_of, run, through};

pub(crate) fn value(t: &[u8; 256], b: u8) -> u8
    ensures { result ≡ get_or t.now b 0 }
{
    t[b as usize]
}

pub(crate) fn floor_of(latin: bool) -> u8
    ensures { result ≡ floor_of latin }
{
    if latin { 0 } else { 1 }
}

pub(crate) fn heard_of(latin: bool, v: u8, b: u8) -> u8
    ensures { result ≡ heard_of latin v b }
{
    if latin { b } else { v }
}

// Where the first byte stands whose value is not above the floor.
fn stop_in(t: &[u8; 256], floor: u8, s: &[u8]) -> Option<usize>
    ensures { result ≡ position (λ x. leb (get_or t.now x 0) floor) s.now }
{
    s.iter().position(|b| t[*b as usize] <= floor)
}

// How many bytes at the front have a value above the floor: four bytes a turn.
pub(crate) fn run_of(t: &[u8; 256], floor: u8, s: &[u8]) -> usize
    ensures { result ≡ run t.now floor s.now }
{
    let (fours, rest) = s.as_chunks::<4>();
    for (k, four) in fours.iter().enumerate() {
        if let Some(i) = stop_in(t, floor, four) {
            return 4 * k + i;
        }
    }
    4 * fours.len() + stop_in(t, floor, rest).unwrap_or(rest.len())
}

// A run on a side put into the room from n on; answers how far it goes: a byte a turn.
fn put_on(t: &[u8; 256], latin: bool, s: &[u8], out: &mut [u8], n: usize) -> usize
    requires { n + length (through t.now latin s.now) ≤ length out.old }
    ensures { (result ≡ run t.now (floor_of latin) s.now) × (out.new ≡ sets out.old n (through t.now latin s.now)) }
{
    for (k, b) in s.iter().enumerate() {
        let v = value(t, *b);
        if v <= floor_of(latin) {
            return k;
        }
        out[n + k] = heard_of(latin, v, *b);
    }
    s.len()
}

// The Russian run, eight bytes a turn.
// Stays: counted by hand; by `as_chunks` a text letter by letter takes a fifteenth more instructions to write.
pub(crate) fn translate(t: &[u8; 256], s: &[u8], out: &mut [u8], n: usize) -> usize
    requires { n + length (through t.now false s.now) ≤ length out.old }
    ensures { (result ≡ run t.now 1 s.now) × (out.new ≡ sets out.old n (through t.now false s.now)) }
{
    let mut k: usize = 0;
    while k + 8 <= s.len() {
        let r = put_on(t, false, &s[k..k + 8], out, n + k);
        if r < 8 {
            return k + r;
        }
        k += 8;
    }
    k + put_on(t, false, &s[k..], out, n + k)
}

// A run on a side; most Latin runs are short.
pub(crate) fn put_run(t: &[u8; 256], latin: bool, s: &[u8], out: &mut [u8], n: usize) -> usize
    requires { n + length (through t.now latin s.now) ≤ length out.old }
    ensures { (result ≡ run t.now (floor_of latin) s.now) × (out.new ≡ sets out.old n (through t.now latin s.now)) }
{
    if latin {
        return put_on(t, true, s, out, n);
    }
    translate(t, s, out, n)
}
