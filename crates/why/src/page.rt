// The answer as it grows.
ghost use Rattle.std.specs.Prelude.{◌≤◌};
ghost use Rattle.why.specs.declared.page.TheConstants.{ROOM};

use crate::texts::{Meaning, Text};
use crate::{english, russian};
use base::bytes::put;

// Room for an answer with a line of 10,000 control bytes, and the mark under its end.
const ROOM: usize = 100000;

#[derive(Clone, Copy)]
pub(crate) enum Language {
    English,
    Russian,
}

// Stays: each language is a file of texts made from one paper; one function with both side by side is no shorter.
impl Language {
    fn text_of(self, text: Text) -> &'static [u8] {
        match self {
            Language::English => english::text_of(text),
            Language::Russian => russian::text_of(text),
        }
    }

    fn meaning_of(self, number: usize) -> Option<Meaning> {
        match self {
            Language::English => english::meaning_of(number),
            Language::Russian => russian::meaning_of(number),
        }
    }
}

// What was said so far, in the language asked for.
#[derive(Drop)]
pub(crate) struct Page {
    language: Language,
    room: [u8; ROOM],
    size: usize,
    ghost within: { size ≤ ROOM },
}

impl Page {
    pub(crate) fn new(language: Language) -> Page {
        Page {
            language,
            room: [0u8; ROOM],
            size: 0,
        }
    }

    pub(crate) fn said(&self) -> &[u8] {
        &self.room[..self.size]
    }

    // A part behind what stands there, where the room has as much left.
    pub(crate) fn add(&mut self, part: &[u8]) {
        if part.len() <= ROOM - self.size {
            put(&mut self.room, self.size, part);
            self.size += part.len();
        }
    }

    pub(crate) fn add_number(&mut self, n: usize) {
        let mut digits = [0u8; 20];
        let k = io::decimal(n as u64, &mut digits);
        self.add(&digits[..k]);
    }

    pub(crate) fn put_text(&mut self, text: Text) {
        let said = self.language.text_of(text);
        self.add(said);
    }

    // A word in front of what it names.
    pub(crate) fn put_label(&mut self, word: Text) {
        self.put_text(word);
        self.add(b"\t");
    }

    // A word or a sentence as a line.
    pub(crate) fn put_remark(&mut self, text: Text) {
        self.put_text(text);
        self.add(b"\n");
    }

    pub(crate) fn put_count(&mut self, word: Text, n: usize) {
        self.put_label(word);
        self.add_number(n);
        self.add(b"\n");
    }

    // The number, what it means and what to do.
    pub(crate) fn put_refusal(&mut self, number: usize) {
        self.add_number(number);
        self.add(b"\t");
        match self.language.meaning_of(number) {
            Some(meaning) => self.put_meaning(meaning),
            None => self.put_remark(Text::Unknown),
        }
    }

    fn put_meaning(&mut self, meaning: Meaning) {
        self.add(meaning.means);
        self.add(b"\n");
        self.put_label(Text::Todo);
        self.add(meaning.remedy);
        self.add(b"\n");
    }
}
