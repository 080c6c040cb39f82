// The records of the tables as plain data, the elements of lent slices that `table_walks` speaks of. No code.
#![tactic(auto)]
