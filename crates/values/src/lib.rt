// The values inside a message's fields: days, amounts, party lines and tax lines, and what the rules 9, 10, 12 and 13 ask of one content.
#![tactic(auto)]

pub mod amounts;
pub mod banks;
mod days;
pub mod findings;

// Of a content: the places, counted from its start, of the first date that is no day, of a currency that isn't the rouble, and of a party line
// whose parts differ; and whether there is a KPP.
#[derive(Clone, Copy)]
pub struct Finds {
    pub day: Option<usize>,
    pub currency: Option<usize>,
    pub party: Option<usize>,
    pub kpp: bool,
}
