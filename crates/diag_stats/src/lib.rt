//! How many findings there are of each level, the summary that tells it, and the exit code.
#![tactic(auto)]

mod checks;
mod human;
mod json_line;
pub mod stats;
pub mod summary;

pub use stats::{AllStats, Stats, stats_to_exit_code};
pub use summary::print_stats;
