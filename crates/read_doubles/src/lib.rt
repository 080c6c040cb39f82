// No code: that every cell which document 01 reads from a file of bytes is given faithfully as a double.
#![tactic(auto)]
