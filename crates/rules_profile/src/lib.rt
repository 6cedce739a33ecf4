// Definitions only (specs/): document 02's profile of settings, in its two editions.
#![tactic(auto)]
