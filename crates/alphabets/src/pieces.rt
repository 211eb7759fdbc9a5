// A bank text read in pieces, as details that run over lines are, and its first characters. The table is lent, so that it is made once.
ghost use Rattle.std.specs.Prelude.{◌≡◌, false};
ghost use Rattle.alphabets.specs.Steps.{back_table};
ghost use Rattle.alphabets.specs.Pieces.{piece_in, characters_from};

use super::backwards::BACK;
use super::runs::{floor_of, heard_of, run_of, value};

// How many characters a piece has, and the side behind it.
#[derive(Clone, Copy, PartialEq, Eq)]
pub struct Heard {
    pub units: usize,
    pub latin: bool,
}

// What a piece comes to, or the place where it stops.
pub type Piece = Result<Heard, usize>;

pub fn back_table() -> [u8; 256]
    ensures { result ≡ back_table }
{
    BACK
}

// A turn takes a run and the apostrophe behind it.
// Stays: any table may be lent, as `read_piece`, `first_characters` and `put_piece` promise, so none is held in a struct.
pub fn read_piece(back: &[u8; 256], latin: bool, part: &[u8]) -> Piece
    ensures { result ≡ piece_in back.now latin part.now }
{
    let mut heard = Heard { units: 0, latin };
    let mut rest = part;
    loop {
        let (run, behind) = rest.split_at(run_of(back, floor_of(heard.latin), rest));
        heard.units += run.len();
        match behind {
            [] => return Ok(heard),
            [b'\'', more @ ..] => {
                heard.latin = !heard.latin;
                rest = more;
            }
            _ => return Err(part.len() - behind.len()),
        }
    }
}

// The first four characters, 0 for each that is missing.
// Stays: 0 and not `None`, since `characters_from` promises it and the clauses of 14 look at the four as bytes.
pub fn first_characters(back: &[u8; 256], part: &[u8]) -> [u8; 4]
    ensures { result ≡ characters_from back.now 4 false part.now 0 }
{
    let mut first = [0; 4];
    let mut n = 0;
    let mut latin = false;
    for b in part {
        let v = value(back, *b);
        if floor_of(latin) < v {
            first[n] = heard_of(latin, v, *b);
            n += 1;
            if n == first.len() {
                return first;
            }
        } else if *b == b'\'' {
            latin = !latin;
        } else {
            return first;
        }
    }
    first
}
