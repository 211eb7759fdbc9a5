// A line of the message: where its bytes stop, whether CR LF stands there, and whether 4 refuses it.
ghost use Rattle.std.specs.Prelude.{◌≡◌, ◌&&◌, ◌+◌, ◌-◌, ◌<◌, eqb, length};
ghost use Rattle.base.specs.Bytes.{byte, classes};
ghost use Rattle.fields.specs.Frame.{line_bad};
ghost use Rattle.fields.specs.Shapes.{front_tag};
ghost use Rattle.frame.specs.Rest.{Tail, Stop};

use base::bytes::lead_of;
use fields::is_bad_start;

// The first byte from a line's start on that is not of the set.
pub(crate) fn end_of(t: &[u8; 256], m: &[u8], at: usize) -> usize
    requires { (t.now ≡ classes) × Tail m.now at × (at < length m.now - 2) }
    ensures { Stop m.now at result }
{
    let e = m.len() - 2;
    at + lead_of(t, &m[at..e])
}

pub(crate) fn is_ended(m: &[u8], i: usize) -> bool
    requires { i + 1 < length m.now }
    ensures { result ≡ (eqb (byte m.now i) 13 && eqb (byte m.now (i + 1)) 10) }
{
    m[i] == b'\r' && m[i + 1] == b'\n'
}

// The tag is the line's, if it has one.
pub(crate) fn is_bad_line(first: bool, line: &[u8], tag: Option<u32>) -> bool
    requires { tag ≡ front_tag line.now }
    ensures { result ≡ line_bad first line.now }
{
    is_bad_start(first, line) || (tag.is_none() && line[0] == b':')
}
