// Document 02, "Comments change nothing", as a theorem about document 01's definitions: what a file is worth hangs on the list of its lines after cutting. No code.
#![tactic(auto)]
