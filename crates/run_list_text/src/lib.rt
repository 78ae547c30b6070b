//! Listings: which licences the crates have, whatever the policy allows.
//! Used by run_list, deny_run's clauses and tests_gather; what is passed on may change, no clause is here.
#![tactic(auto)]

mod grouped;
mod human;
mod json_text;
pub mod lines;
pub mod listed;
pub mod listing;
mod plain;
mod sets;
mod table;

pub use lines::ListError;
pub use listed::{ListedCrate, ListedCrates, listed_crates};
pub use listing::{list, write_listing};
