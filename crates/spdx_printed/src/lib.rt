//! Licence expressions as they are printed from their terms and nodes.
#![tactic(auto)]

pub mod laws;
mod pieces;
pub mod printing;

pub use printing::{printed, push_term};
