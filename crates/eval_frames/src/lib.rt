// Definitions and proofs only (specs/): the objects and members on the stack while answers are added.
// Definitions and proofs only (specs/): what a document weighs in a job's memory.
#![tactic(auto)]
