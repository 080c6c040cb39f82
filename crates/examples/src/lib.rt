// Document 01's bench examples as theorems about the definitions: one list, one proof. No code.
#![tactic(auto)]
