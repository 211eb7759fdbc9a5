// Whole answers of the programs: the output, or the line of the refusal.
#![tactic(auto)]

pub mod programs;
pub mod rooms;
mod shown;
