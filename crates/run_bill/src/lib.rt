//! The command `bill` over a request: an SPDX document of the crates that a check looks at, with the licence that is
//! declared for each and the one that the policy's choice concludes, or whether such a document has changed.
//! Used by deny_run; what is passed on may change, no clause is here.
#![tactic(auto)]

pub mod billed;
pub mod billing;
mod comparing;
mod licences;
mod packages;

pub use billed::BilledCrates;
pub use billing::bill_since;
