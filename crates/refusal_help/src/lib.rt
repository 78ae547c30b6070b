//! What is printed behind the line of a refusal: where it comes from, and what to do.
//! Used by deny_gate; what is passed on may change, no clause is here.
#![tactic(auto)]

pub mod again;
mod help;
pub mod laws;
mod place;
pub mod tell;
mod unknown;
mod words;

pub use again::Again;
pub use tell::tell_help;
