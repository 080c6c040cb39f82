// Demand 3 as a theorem about document 01's definitions: a model section's meaning and faults are its own. No code.
#![tactic(auto)]
