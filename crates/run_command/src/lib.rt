//! What all commands over crates share: what they are given, what is looked at and read before they do their own, and
//! in which order they are refused.
//! Used by deny_run, run_list, run_check and run_record; what is passed on may change, no clause is here.
#![tactic(auto)]

mod carried;
pub mod crates;
mod manifest;
pub mod prelude;
mod written;

pub use carried::{no_levels, unsupported_in};
pub use crates::{CratesFound, MetadataFound, PolicyUse, crates_found, crates_of, metadata_found};
pub use prelude::lists_of_request;
pub use written::write_answer;
