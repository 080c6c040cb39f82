// Document 01's five cheating readers, each refuted by the promise of `read` on files that are written out. No code.
#![tactic(auto)]
