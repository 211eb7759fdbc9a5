#![tactic(auto)]
// Standard input and output of the programs. A read that fails is told from the end of the input; a read or a write that fails is said
// on standard error.
ghost use Rattle.streams.specs.Input.{Held, Delivered};

use std::io;
use std::io::Read;

// Where a program writes: standard output, and standard error for a word where that fails.
pub trait Output: Print + Eprint {}

impl Output for HostRuntime {}

// What a reader gives, from the first byte of the room on: how many bytes, all that there are or all that the room holds; or the read
// that failed.
pub fn fill<R: Read>(input: &mut R, room: &mut [u8]) -> io::Result<usize>
    ensures held { Held result room.new }
    ensures delivered { Delivered result (R.remaining input.old) (R.remaining input.new) room.new }
{
    let mut n = 0;
    // Stays: a reader says at each turn how many bytes it gave, so there is nothing for an iterator to go over.
    while n < room.len() {
        let got = input.read(&mut room[n..])?;
        if got == 0 {
            return Ok(n);
        }
        n += got;
    }
    Ok(n)
}

// A word on standard error. Where that fails too, there is nobody to tell.
fn complain(rt: &impl Eprint, words: &str) {
    let _ = rt.eprintln(words);
}

// Standard input from the first byte of the room on.
pub fn read_input(rt: &(impl std::io::Input + Eprint), room: &mut [u8]) -> io::Result<usize>
    ensures { Held result room.new }
{
    let mut input = rt.reader();
    let came = fill(&mut input, room);
    if came.is_err() {
        complain(rt, "standard input could not be read");
    }
    came
}

// All of it to standard output, or a word on standard error.
pub fn write_output(rt: &impl Output, part: &[u8]) {
    if rt.write_all(part).is_err() {
        complain(rt, "standard output could not be written");
    }
}

#[cfg(test)]
mod tests;
