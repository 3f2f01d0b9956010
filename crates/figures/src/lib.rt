// The figures of the rules, each from plain numbers: what the engines, the seal and the reader are made of.
#![tactic(auto)]

mod editions;
mod gaps;
mod numbers;
pub mod opening;
mod refusals;

pub use editions::{heeds_splices, is_edition, knows_damage, rounds_to_nearest};
pub use gaps::gap_loss;
pub use numbers::low;
pub use opening::{Sizes, good_pid, good_size, good_time, opening_fault, sizes_of};
pub use refusals::listed_number;
