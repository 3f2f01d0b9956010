// The calls of document 02 that are beside the sample, as C functions, a file a request: each hands its memory to
// the call of the crate below and splits the answer into numbers.
#![tactic(auto)]

mod busiest;
mod gaps;
mod losses;
mod small_screen;
