//! The command `why`: of crates that are named, or of all that the check is against, what their verdicts rest on.
//! Used by deny_run; what is passed on may change, no clause is here.
#![tactic(auto)]

mod graph;
pub mod laws;
mod named;
mod telling;
pub mod whying;

pub use whying::{unsupported_words, why_since};
