#![tactic(auto)]

// No code: what is true of a sheet written as a message stands in proofs/, over the definitions of writer.
