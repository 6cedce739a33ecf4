// What is proved of characters and of places in a text. No code.
#![tactic(auto)]
