// The sign, of any bytes: what would be the first content begins with +.
ghost use Rattle.std.specs.Prelude.{◌≡◌, drop};
ghost use Rattle.base.specs.Bytes.{begins};
ghost use Rattle.fields.specs.ByLines.{start_at};

use fields::start_at;

// The colon of the first field, behind `{4:` and CR LF.
const FIRST: u32 = 5;

// Of a message that the quick pass took, whether it has the sign (`signed_is`).
pub fn is_signed(m: &[u8]) -> bool
    ensures { result ≡ begins 43 (drop (start_at m.now 5) m.now) }
{
    let start = start_at(m, FIRST);
    start < m.len() && m[start] == b'+'
}
