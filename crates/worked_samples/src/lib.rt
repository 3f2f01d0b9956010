// No code: whole samples, through every rule from the bytes to the record, that the checker computes.
#![tactic(auto)]
