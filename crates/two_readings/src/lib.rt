// What two readings have in common: files that leave the same say the same, and files that are alike but for remarks are answered alike. No code.
#![tactic(auto)]
