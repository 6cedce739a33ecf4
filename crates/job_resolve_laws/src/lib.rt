// What the resolution of a document that was read promises, and a law for each place where a function of `job_resolve` returns. No code.
#![tactic(auto)]
