// Definitions only (specs/): all of document 01, as definitions that can be run, with its cases.
#![tactic(auto)]
