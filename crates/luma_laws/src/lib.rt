// The laws of the luma side, and the words that its contracts cite for a run of pictures that goes on. No code.
#![tactic(auto)]
