//! Policies: what of a policy that was read is valid, what its exceptions file adds by what was read of it,
//! and all that is reported of the two.
#![tactic(auto)]

pub mod config;
pub mod exceptions;
mod exceptions_text;
pub mod findings;
pub mod laws;
pub mod load;
pub mod place_laws;
pub mod text;
pub mod valid;
pub mod validate;

pub use crate::config::{Config, RootConfig};
pub use crate::valid::{
    Urls, ValidClarification, ValidClarifications, ValidConfig, ValidException, ValidExceptions,
    is_version_3,
};
pub use crate::validate::UnvalidatedConfig;
pub use diag_core::lists::{Diagnostics, SpannedList, ValidationContext};
pub use exceptions::{ExceptionsHeard, take_exceptions};
pub use findings::tell_shape;
pub use load::{LoadedPolicy, PolicySource, tell_settings, validate_policy};
pub use policy_parts::entries::{
    Clarification, Clarifications, Exception, Exceptions, ExceptionsFile, Licensee, Licensees,
};
pub use policy_parts::spec::{PackageSpec, PackageSpecOrExtended, match_krate, match_req};
pub use policy_parts::{
    BlanketAgreement, FileSource, FileSources, GraphConfig, LintLevel, OutputConfig, Private,
    Reason, Scope, SpannedTexts, Target, Targets,
};
