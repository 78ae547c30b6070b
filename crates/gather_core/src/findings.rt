//! What is found on the way to a crate's licence: its findings, the places that they point at, and the
//! manifest that is written in place of its own; and the licence, with where its expression is.

pub mod case;
mod failures;
pub mod field;
mod findings;
pub mod license;
mod marks;
pub mod outcome;
mod synthesis;

pub use case::{ExpressionBasis, SeenFiles, UnclarifiedCrate};
pub use field::{FieldRead, ParseErrors, read_field};
pub use findings::{Diags, missing_file};
pub use license::{LicenseExprInfo, LicenseExprSource, LicenseInfo};
pub use outcome::{PlacedFindings, find};
