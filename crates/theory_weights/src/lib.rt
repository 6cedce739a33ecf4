// Definitions and proofs only (specs/): how many nodes a document has with its answers.
#![tactic(auto)]
