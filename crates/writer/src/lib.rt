// A sheet written as a message.
#![tactic(auto)]

use types::Form;

mod built;
mod cuts;
pub mod draft;
pub mod holder;
mod notes;
mod parts;
mod purposes;
mod runs;
mod texts;
pub mod to_message;
mod walk;

// What putting something into the room comes to: the place behind, which counts on where the room has ended, or what stops it.
pub(crate) type Step = Result<usize, Halt>;

// A byte of the sheet can't be written, or details don't fit their lines.
#[derive(Clone, Copy)]
pub(crate) enum Halt {
    Stuck(usize),
    Unfit,
}

// Where the text of 70 is cut, by places of the sheet, and whether a new 72 is to come for its rest.
// Stays: `new`, here, in cuts and in runs, says one thing, and `run_as` and `sources` take the same bool; an enum of two cases says no more.
#[derive(Clone, Copy)]
pub(crate) struct Cutting {
    pub(crate) start: usize,
    pub(crate) cut: usize,
    pub(crate) end: usize,
    pub(crate) new: bool,
}

// A sheet's message as it is built: its type, its sign, the cut of its details where they run on, and its size.
#[derive(Clone, Copy)]
pub(crate) struct NewMessage {
    pub(crate) form: Form,
    pub(crate) sign: bool,
    pub(crate) cutting: Option<Cutting>,
    pub(crate) size: usize,
}
