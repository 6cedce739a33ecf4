// One unresolved value that is asked for in a job's memory: what is lent and what is asked, what its pieces give their reader, what the
// rules give by its pieces, and what working it out with those that it needs promises. No code.
#![tactic(auto)]
