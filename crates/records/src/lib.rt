// A clerk's sheet: the type and the sign that it names, and what 19 and 18 say of it.
#![tactic(auto)]

mod parts;
mod pieces;
pub mod sheets;
pub mod tags;

use base::Verdict;
use types::Form;

// What a sheet comes to: 19 or 18 or nothing, its type (`Other` where the first record names none), and whether it has the sign.
// Stays: judge_sheet promises the type and the sign on a refusal too, so they stand beside the verdict.
#[derive(Clone, Copy)]
pub struct Judged {
    pub verdict: Verdict,
    pub form: Form,
    pub sign: bool,
}
