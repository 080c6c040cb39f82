// That a file of at most 65,536 bytes holds fewer than 8,192 rows: specs/ says so of rows that are read and of rows that lie in the tables. No code.
#![tactic(auto)]
