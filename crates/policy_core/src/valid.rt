//! Valid policies: what is left of a policy once the findings of its load are reported, and what it says of
//! crates and terms.

pub mod counted;
pub mod laws;
pub mod policy;
pub mod version;

pub use counted::{AllowedPlace, CountedLicensees, CountedPolicy, ExceptionPlace};
pub use policy::{
    Urls, ValidClarification, ValidClarifications, ValidConfig, ValidException, ValidExceptions,
};
pub use version::is_version_3;
