//! What is recorded of a verdict, and whether a record is right about crates as they are now.
//! Used by run_record and tests_check; what is passed on may change, no clause is here.
#![tactic(auto)]

pub mod answer;
mod certificates;
mod crates;
mod entries;
pub mod laws;
pub mod recorded;
pub mod verifying;

pub use answer::{NoReason, VerifyAnswer};
pub use recorded::recorded_verdict;
pub use verifying::verify;
