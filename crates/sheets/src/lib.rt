// A message read into its sheet.
#![tactic(auto)]

mod built;
mod parts;
mod reading;
mod rest;
mod texts;
pub mod to_sheet;
