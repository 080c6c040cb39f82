// No code: how what document 01 reads from a file lies in the lent tables. The records themselves are in rules.
#![tactic(auto)]
