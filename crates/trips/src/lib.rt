#![tactic(auto)]

// No code: what comes back from a sheet that is written, and from a message that is read, stands in proofs/.
