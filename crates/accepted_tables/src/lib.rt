// No code: what the tables of every accepted file satisfy.
#![tactic(auto)]
