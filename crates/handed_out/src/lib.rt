// No code: that every record which document 01 reads from a file of bytes is fine, so its words read back as itself.
#![tactic(auto)]
