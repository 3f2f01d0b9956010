// No code: the laws of a record's bytes, below the crates that read and write them.
#![tactic(auto)]
