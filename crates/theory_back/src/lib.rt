// Definitions and proofs only (specs/): where an unresolved value stands, found by going down to it, and its look-back.
#![tactic(auto)]
