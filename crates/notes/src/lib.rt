// What is noted of a file while its lines are read: specs/ says what a note is and what the notes of a file are. No code.
#![tactic(auto)]
