//! The shortest walks from the roots of a workspace to its crates.
#![tactic(auto)]

mod search;
mod unchecked;
mod walks;

pub use unchecked::{SelectingWalks, Unchecked};
pub use walks::{ShortestWalks, kind_left_out, shortest_is_one, shortest_walks};
