// Answers, bytes and lent room: what every other crate is written with.
#![tactic(auto)]

pub mod bits;
pub mod bytes;
pub mod marks;
pub mod xset;

// A refusal, as a clerk sees it: the number of the rule that is broken, and the place.
#[derive(Clone, Copy, PartialEq, Eq, Debug)]
pub struct Refusal {
    pub number: u32,
    pub place: usize,
}

// What a rule says: nothing, or its refusal.
pub type Verdict = Result<(), Refusal>;

// The answer of a call that writes: how many units it wrote, or its refusal.
pub type Outcome = Result<usize, Refusal>;
