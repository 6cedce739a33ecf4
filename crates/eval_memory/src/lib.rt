// Definitions and proofs only (specs/): what stands in a job's memory while it is evaluated, and which layers its numbers show.
#![tactic(auto)]
