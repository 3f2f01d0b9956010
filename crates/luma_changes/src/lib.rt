// How a picture changes against the one before it: the sums over its pixels while they come, and q at its end.
#![tactic(auto)]

mod changes;
pub mod sums;

pub use changes::change;
pub use sums::{Moves, compare_run};
