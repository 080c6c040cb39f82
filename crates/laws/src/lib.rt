// Laws on lists, tests and numbers, cited by every crate above: specs/ has the definitions, proofs/ the laws. No code.
#![tactic(auto)]
