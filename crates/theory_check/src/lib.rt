// Definitions and proofs only (specs/): checking a sheet entry by entry, as the code does it.
#![tactic(auto)]
