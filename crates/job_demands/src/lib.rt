// Definitions and proofs only (specs/): the demands, over the contracts of the jobs.
#![tactic(auto)]
