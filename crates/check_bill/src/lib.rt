//! Bills of the crates that are in a release: SPDX 2.3 documents in tag-value form, and the one spelling of each.
#![tactic(auto)]

pub mod bill;
pub mod error;
pub mod forms;
pub mod laws;
mod parts;
pub mod reading;
mod steps;
pub mod writing;

pub use bill::{Bill, BillPackage, BillPackages, is_same};
pub use error::BillError;
pub use forms::TextForm;
pub use reading::read_bill;
pub use writing::{bill_bytes, write_bill};
