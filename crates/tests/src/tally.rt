// What came of each record, and how many there were.
use crate::tell::tell;
use streams::Output;

// The longest list, in bytes.
pub(crate) const LONGEST: usize = 2097152;

// What a record is; a text that came out otherwise than the list has it is told apart.
#[derive(Clone, Copy)]
pub(crate) enum Kind {
    Text,
    Otherwise,
    Message,
    Sheet,
}

// A record that was gone through, and the place behind it.
#[derive(Clone, Copy)]
pub(crate) struct Taken {
    pub(crate) kind: Kind,
    pub(crate) next: usize,
}

#[derive(Clone, Copy, Default)]
pub(crate) struct Counts {
    texts: usize,
    messages: usize,
    sheets: usize,
    differ: usize,
}

impl Counts {
    // One more. A list has no more records than bytes, so no count ends early.
    pub(crate) fn add(&mut self, kind: Kind) {
        match kind {
            Kind::Text => self.texts = self.texts.saturating_add(1),
            Kind::Otherwise => {
                self.texts = self.texts.saturating_add(1);
                self.differ = self.differ.saturating_add(1);
            }
            Kind::Message => self.messages = self.messages.saturating_add(1),
            Kind::Sheet => self.sheets = self.sheets.saturating_add(1),
        }
    }

    pub(crate) fn tell(&self, rt: &impl Output) {
        tell(rt, self.texts as u64, b" texts, ");
        tell(rt, self.messages as u64, b" messages, ");
        tell(rt, self.sheets as u64, b" sheets; ");
        tell(rt, self.differ as u64, b" texts differ\n");
    }
}
