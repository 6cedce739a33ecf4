// What the questions that have begun come to: the newest of them, and which of them is the first that refuses.
#![tactic(auto)]

pub mod newest;
pub mod refusals;
