// Definitions only (specs/): document 02's tables with lengths (sized tables), and edits of them.
#![tactic(auto)]
