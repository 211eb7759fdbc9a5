#![tactic(auto)]

// No code: the worked examples stand in specs/ and proofs/.
