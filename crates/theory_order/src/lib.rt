// Definitions and proofs only (specs/): the order of working out as the code will do it.
#![tactic(auto)]
