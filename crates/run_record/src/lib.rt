//! The commands `record` and `verify` over a request: a file of the verdicts on its crates with what shows them, and
//! whether such a file is right about the crates as they are.
//! Used by deny_run; what is passed on may change, no clause is here.
#![tactic(auto)]

pub mod recording;
pub mod verdicts;
pub mod verifying;

pub use recording::record_since;
pub use verdicts::{NoReason, VerifiedCrates, VerifyAnswer};
pub use verifying::verify_since;
