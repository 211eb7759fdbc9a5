// The words of a record's line.
use stored::{number, word};

// The word behind so many spaces.
pub(crate) fn word_of(head: &[u8], spaces: usize) -> &[u8] {
    word(b' ', head, spaces)
}

pub(crate) fn number_of(head: &[u8], spaces: usize) -> Option<usize> {
    number(word_of(head, spaces))
}

// A number there that is not above the most.
pub(crate) fn number_within(head: &[u8], spaces: usize, most: usize) -> Option<usize> {
    number_of(head, spaces).filter(|n| *n <= most)
}
