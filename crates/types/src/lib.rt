// The forms of messages as lists of places, and the steps of the walk over a message's fields.
#![tactic(auto)]

pub mod forms;
pub mod steps;
pub mod tags;

// As many places as the longest type has.
pub const PLACES: usize = 14;

// A form's key, found once from the type that a caller gave: of any other type there is no form.
#[derive(Clone, Copy, PartialEq, Eq)]
pub enum Form {
    Other,
    Mt103,
    Mt202,
}

// A field's place, and what is wrong with it there, if anything: 5, 6 or 7.
#[derive(Clone, Copy, PartialEq, Eq)]
pub struct Step {
    pub place: usize,
    pub wrong: Option<u32>,
}
