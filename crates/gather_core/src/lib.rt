//! The licences of all crates that are selected.
#![tactic(auto)]

mod clarifications;
mod exceptions;
pub mod findings;
pub mod gatherer;
pub mod laws;
mod rules;
pub mod summary;
mod tell;
mod told;
mod turn;

pub use crate::findings::{Diags, LicenseExprInfo, LicenseExprSource, LicenseInfo};
pub use gather_license::{KeptFile, KeptFiles, KeptText};
pub use gatherer::{Gatherer, cut_threshold};
pub use summary::{KrateLicense, KrateLicenses, Summary};
