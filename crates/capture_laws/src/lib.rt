// No code: the laws of a capture's rules, one file a chapter, below the crates that read and count cells.
#![tactic(auto)]
