// Definitions and proofs only (specs/): values whose keys are numbers, and their records as the evaluator keeps them.
#![tactic(auto)]
