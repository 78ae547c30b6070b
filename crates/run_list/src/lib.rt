//! The command `list`: from a request and the files to the licences of the crates.
//! Used by deny_run; `cmd` has no caller here and is for callers of the crate, no clause is in this file.
#![tactic(auto)]

pub mod command;
pub mod crates;

pub use command::{cmd, list_since};
