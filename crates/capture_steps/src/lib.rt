// What every step of the walk through a capture needs: its numbers, the bytes that it collects, how many bytes go
// together, and what a step tells. What its numbers mean, and what a step promises, is said in the specs.
#![tactic(auto)]

mod collected;
mod numbers;
mod runs;
mod spans;
mod types;

pub use collected::{carry, collect};
pub use numbers::{load, refused, step, store};
pub use spans::span;
pub use types::{COLLECTED_BYTES, Collected, Event, Run, Step, WALK_WORDS, Walk, WalkWords};
