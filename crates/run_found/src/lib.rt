//! What a request finds: its policy, and the licences of the crates that it looks at.
//! Used by run_command and the crate of each command; what is passed on may change, no clause is here.
#![tactic(auto)]

pub mod carried;
pub mod error;
pub mod licenses;
pub mod own_names;
pub mod places;
pub mod policy;
pub mod reads;

pub use carried::is_sarif;
pub use error::Error;
pub use licenses::licenses_found;
pub use policy::{PolicyRefusal, policy_found};
pub use reads::{CrateRead, CrateReads, reads_of_licenses};
