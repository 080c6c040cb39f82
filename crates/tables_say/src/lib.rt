// No code: that the tables and the header of a file hold all that document 01 reads from it.
#![tactic(auto)]
