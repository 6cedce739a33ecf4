// Definitions and proofs only (specs/): unresolved values as they are listed have pieces as they were read.
// What the promises of reading say of each refusal: theorems, no code.
#![tactic(auto)]
