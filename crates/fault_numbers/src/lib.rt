// Which numbers the faults of a file have: specs/ says so of a text, of a file that is checked and of a file that is loaded. No code.
#![tactic(auto)]
