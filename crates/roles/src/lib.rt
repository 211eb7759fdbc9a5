// Which lines of a field are copied, names or details, and what 14 says of its texts; and 21.
#![tactic(auto)]

pub mod clauses;
pub mod lengths;
pub mod lines;
pub mod parts;
pub mod shapes;
pub mod texts;

// What the lines of a field are: all copied; those of 50K; of 59 and 58D; of 56D and 57D; of 70; of 72 in 103, and in 202.
#[derive(Clone, Copy)]
pub enum Shape {
    Plain,
    Payer,
    Payee,
    Agent,
    Details,
    Note103,
    Note202,
}

// What the lines of a field, or the parts of a record, are from one on: all copied; from the first on of a payer, a payee, an agent; from the
// tax place on; names.
#[derive(Clone, Copy)]
pub enum Role {
    Copies,
    OfPayer,
    OfPayee,
    OfAgent,
    Taxed,
    Names,
}
