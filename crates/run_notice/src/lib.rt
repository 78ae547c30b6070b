//! The command `notice` over a request: which licence each accepted crate is used under, and each licence text once.
//! Used by deny_run; what is passed on may change, no clause is here.
#![tactic(auto)]

mod making;
pub mod noticed;
pub mod noticing;
mod own;
mod writing;

pub use noticed::NoticedCrates;
pub use noticing::notice_since;
