// A message judged whole: the quick pass, then 8 and what 9 to 13 need, in one turn a field, then 14 over the texts, and 21. The calls on it: its
// check, the part of one place, the kopecks and the date of 32A.
#![tactic(auto)]

pub mod check;
pub mod content;
mod facts;
mod lengths;
pub mod paid;
pub mod parts;
mod rules;
pub mod sign;
mod speeches;
pub mod verdict;

// Where the content of a place stands in the message.
#[derive(Clone, Copy)]
pub struct Span {
    pub start: usize,
    pub end: usize,
}

// What the check answers of a message that is accepted: how many fields it has, and a word with a bit for each place present.
#[derive(Clone, Copy)]
pub struct Accepted {
    pub fields: usize,
    pub present: u32,
}

// A day of the calendar.
#[derive(Clone, Copy)]
pub struct Day {
    pub year: u32,
    pub month: u32,
    pub day: u32,
}
