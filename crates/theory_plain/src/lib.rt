// Definitions and proofs only (specs/): the hardest definitions of the rules once more, in a plain form.
#![tactic(auto)]
