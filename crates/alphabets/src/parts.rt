// A text inside larger room: how long a text is, one without the sign put from a place on, and a piece of a bank text read into it.
ghost use Rattle.std.specs.Prelude.{◌≡◌, leb, length, ◌+◌, ◌≤◌};
ghost use lib.Seq.{sets};
ghost use Rattle.base.specs.Calls.{placed, text_of};
ghost use Rattle.alphabets.specs.Bank.{plainly};
ghost use Rattle.alphabets.specs.Pieces.{piece_in};
ghost use Rattle.alphabets.specs.Parts.{extent_of, piece_text, spoken};

use super::pieces::{Piece, read_piece};
use super::runs::put_run;

// Why there is no text: the first byte that has no reading or can't be written, or that a desk text has more than 10,000 bytes.
#[derive(Clone, Copy, PartialEq, Eq)]
pub enum Stop {
    At(usize),
    Long,
}

// How many bytes a text takes, or why there is none.
pub type Extent = Result<usize, Stop>;

// There is room for n units from a place on.
pub(crate) fn fits(room: usize, at: usize, n: usize) -> bool
    ensures { result ≡ leb (at + n) room }
{
    n <= room && at <= room - n
}

// Without the character a text is its own bytes of the x set: put into the room from a place on, where it is one and fits.
pub(crate) fn put_plain(text: &[u8], out: &mut [u8], at: usize) -> Extent
    ensures { (result ≡ extent_of (plainly text.now)) × (out.new ≡ placed out.old at (text_of (plainly text.now))) }
{
    let t = base::xset::x_classes();
    let k = base::bytes::lead_of(&t, text);
    if k < text.len() {
        return Err(Stop::At(k));
    }
    base::bytes::put(out, at, text);
    Ok(text.len())
}

// A turn takes a run and the apostrophe behind it.
pub(crate) fn fill_piece(back: &[u8; 256], latin: bool, part: &[u8], out: &mut [u8], at: usize)
    requires { at + length (spoken back.now latin part.now) ≤ length out.old }
    ensures { out.new ≡ sets out.old at (spoken back.now latin part.now) }
{
    let mut side = latin;
    let mut rest = part;
    let mut n = at;
    loop {
        let run = put_run(back, side, rest, out, n);
        let (_, behind) = rest.split_at(run);
        n += run;
        let [b'\'', more @ ..] = behind else {
            return;
        };
        side = !side;
        rest = more;
    }
}

// What a piece of a bank text stands for put into the room from a place on, where it reads and fits; answers what the piece comes to.
pub fn put_piece(back: &[u8; 256], latin: bool, part: &[u8], out: &mut [u8], at: usize) -> Piece
    ensures { (result ≡ piece_in back.now latin part.now) × (out.new ≡ placed out.old at (piece_text back.now latin part.now)) }
{
    let heard = read_piece(back, latin, part)?;
    if fits(out.len(), at, heard.units) {
        fill_piece(back, latin, part, out, at);
    }
    Ok(heard)
}
