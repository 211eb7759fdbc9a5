// The quick pass over a message: 18 and 1 to 7, where its fields stand, and which places they have.
#![tactic(auto)]

mod late;
mod lines;
mod pass;
pub mod quick;

// As many places as the longest type has, and one for the - behind the last field.
pub const SPOTS: usize = 15;

// What the pass found: how many fields there are, the word of their places, their colons in order, and behind these the -. Zeros stand
// behind.
#[derive(Clone, Copy)]
pub struct Frame {
    pub fields: usize,
    pub present: u32,
    pub spots: [u32; SPOTS],
}
