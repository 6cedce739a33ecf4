// Definitions and proofs only (specs/): when each refusal of resolving comes.
#![tactic(auto)]
