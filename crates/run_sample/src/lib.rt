//! The sample: a workspace of so many crates that is made up, so that anyone can see the whole gate at work.
//! Used by deny_run; `sample_tree` has no caller outside and may become private, no clause is here.
#![tactic(auto)]

pub mod command;
mod lines;
mod metadata;
mod request;
mod steady;
pub mod tree;

pub use command::sample;
pub use tree::sample_tree;
