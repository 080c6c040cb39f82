// What is noted of an accepted file is what document 01 reads from it: specs/ says so table by table, proofs/ proves it. No code.
#![tactic(auto)]
