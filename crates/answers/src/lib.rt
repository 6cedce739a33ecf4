// Definitions and proofs only (specs/).
#![tactic(auto)]
