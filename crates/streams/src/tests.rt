// What no contract says: that a read which fails in the middle is told from the end of the input, and that a write which fails is told once.
use super::*;
use std::cell::Cell;
use std::fmt::Display;

// Gives its bytes one at a time, and then fails.
#[derive(Drop)]
struct Halting<'a> {
    left: &'a [u8],
}

impl Read for Halting<'_> {
    fn read(&mut self, buf: &mut [u8]) -> io::Result<usize> {
        if buf.is_empty() {
            return Ok(0);
        }
        let Some((first, left)) = self.left.split_first() else {
            return Err(io::Error::other("halted"));
        };
        buf[0] = *first;
        self.left = left;
        Ok(1)
    }
}

// Takes so many writes, and counts the words on standard error.
#[derive(Drop)]
struct Clerk {
    writes: Cell<u32>,
    words: Cell<u32>,
}

impl Print for Clerk {
    fn print<D: Display + Drop>(&self, _value: D) -> io::Result<()> {
        self.write_all(b"")
    }

    fn println<D: Display + Drop>(&self, _value: D) -> io::Result<()> {
        self.write_all(b"")
    }

    fn write_all(&self, _bytes: &[u8]) -> io::Result<()> {
        let left = self.writes.get();
        if left == 0 {
            return Err(io::Error::other("closed"));
        }
        self.writes.set(left - 1);
        Ok(())
    }
}

impl Eprint for Clerk {
    fn eprint<D: Display + Drop>(&self, _value: D) -> io::Result<()> {
        self.words.set(self.words.get().saturating_add(1));
        Ok(())
    }

    fn eprintln<D: Display + Drop>(&self, value: D) -> io::Result<()> {
        self.eprint(value)
    }
}

impl Output for Clerk {}

#[test]
fn reads_to_the_end(rt: HostRuntime) {
    let mut room = [0u8; 4];
    let mut few: &[u8] = b"ab";
    assert_eq!(rt; fill(&mut few, &mut room).ok(), Some(2));
    assert_eq!(rt; room, *b"ab\0\0");
    let mut many: &[u8] = b"abcdef";
    assert_eq!(rt; fill(&mut many, &mut room).ok(), Some(4));
    assert_eq!(rt; room, *b"abcd");
    assert_eq!(rt; many, b"ef".as_slice());
}

#[test]
fn fails_in_the_middle(rt: HostRuntime) {
    let mut room = [0u8; 4];
    assert_eq!(rt; fill(&mut Halting { left: b"abc" }, &mut room).ok(), None);
    assert_eq!(rt;
        fill(&mut Halting { left: b"abcd" }, &mut room).ok(),
        Some(4)
    );
    assert_eq!(rt; room, *b"abcd");
}

#[test]
fn says_what_was_not_written(rt: HostRuntime) {
    let clerk = Clerk {
        writes: Cell::new(1),
        words: Cell::new(0),
    };
    write_output(&clerk, b"ab");
    assert_eq!(rt; clerk.words.get(), 0);
    write_output(&clerk, b"cd");
    assert_eq!(rt; clerk.words.get(), 1);
}
