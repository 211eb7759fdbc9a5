// Two alphabets: what a bank text says, whole and in pieces; and a desk text written as the shortest bank text, alone and inside larger room.
#![tactic(auto)]

mod backwards;
mod grid;
pub mod parts;
pub mod pieces;
mod runs;
mod writing;

ghost use Rattle.std.specs.Prelude.{◌≡◌, false, length, ◌≤◌};
ghost use Rattle.base.specs.Calls.{text_of, placed};
ghost use Rattle.alphabets.specs.Bank.{reads};
ghost use Rattle.alphabets.specs.Best.{writes};
ghost use Rattle.alphabets.specs.Parts.{extent_of, extent, written};
ghost use Rattle.alphabets.specs.Text.{ReadTo, WrittenTo, ending_of};

use base::{Outcome, Refusal};
use parts::{Extent, Stop, fill_piece, fits, put_plain};
use pieces::{back_table, read_piece};
use writing::Grid;

// A call's answer, by how long its text is, or where it stops, and the room.
fn ending(number: u32, size: Extent, room: usize) -> Outcome
    ensures { result ≡ ending_of number size room }
{
    match size {
        Err(Stop::At(k)) => Err(Refusal { number, place: k }),
        Err(Stop::Long) => Err(Refusal {
            number: 1,
            place: 10000,
        }),
        Ok(n) => {
            if room < n {
                return Err(Refusal {
                    number: 17,
                    place: n,
                });
            }
            Ok(n)
        }
    }
}

// A whole bank text is a piece from the Russian side on that does not end on the Latin one.
fn put_whole(bank: &[u8], out: &mut [u8]) -> Extent
    ensures { (result ≡ extent_of (reads false bank.now)) × (out.new ≡ placed out.old 0 (text_of (reads false bank.now))) }
{
    let back = back_table();
    let heard = read_piece(&back, false, bank).map_err(Stop::At)?;
    if heard.latin {
        return Err(Stop::At(bank.len()));
    }
    if fits(out.len(), 0, heard.units) {
        fill_piece(&back, false, bank, out, 0);
    }
    Ok(heard.units)
}

// What a bank text says.
pub fn read_text(sign: bool, bank: &[u8], out: &mut [u8]) -> Outcome
    ensures { ReadTo sign bank.now out.old result out.new }
{
    if bank.len() > 10000 {
        return Err(Refusal {
            number: 1,
            place: 10000,
        });
    }
    let room = out.len();
    if sign {
        return ending(14, put_whole(bank, out), room);
    }
    ending(14, put_plain(bank, out, 0), room)
}

// The shortest bank text, measured first.
fn put_best(desk: &[u8], out: &mut [u8], at: usize) -> Extent
    requires { length desk.now ≤ 10000 }
    ensures { (result ≡ extent_of (writes desk.now)) × (out.new ≡ placed out.old at (text_of (writes desk.now))) }
{
    let grid = Grid::new();
    let n = grid.measure(desk)?;
    if fits(out.len(), at, n) {
        grid.fill(desk, out, at);
    }
    Ok(n)
}

// The bank text for a desk text put into the room from a place on, where there is one and it fits; answers how long it is.
pub fn put_written(sign: bool, desk: &[u8], out: &mut [u8], at: usize) -> Extent
    ensures { (result ≡ extent sign desk.now) × (out.new ≡ placed out.old at (written sign desk.now)) }
{
    if desk.len() > 10000 {
        return Err(Stop::Long);
    }
    if sign {
        return put_best(desk, out, at);
    }
    put_plain(desk, out, at)
}

// The shortest bank text for a desk text.
pub fn write_text(sign: bool, desk: &[u8], out: &mut [u8]) -> Outcome
    ensures { WrittenTo sign desk.now out.old result out.new }
{
    if desk.len() > 5000 {
        return Err(Refusal {
            number: 1,
            place: 5000,
        });
    }
    let room = out.len();
    ending(15, put_written(sign, desk, out, 0), room)
}
