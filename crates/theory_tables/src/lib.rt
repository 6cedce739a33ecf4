// Proofs only (specs/): what is shown of the definitions of `rules_tables`.
#![tactic(auto)]
