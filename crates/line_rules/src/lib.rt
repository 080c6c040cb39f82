// What may stand on a line: specs/ has its definitions and document 01's lists of names and words; here, what a line gives or its fault. No code.
#![tactic(auto)]
