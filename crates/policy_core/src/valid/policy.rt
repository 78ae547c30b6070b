//! The valid policy.
ghost use Rattle.std.specs.Prelude.{◌↔◌, true, IsTrue, Any};
ghost use Rattle.graph_core.specs.Krate.{record_of, SourceMatches};
ghost use Rattle.policy_parts.specs.spec.Spec.{Spec};
ghost use Rattle.policy_core.specs.valid.Policy.{IsPrivate};
ghost use Rattle.policy_core.specs.valid.View.{policy_of};

use deny_text::{ListOf, Span};
use diag_core::FileId;
use graph_core::Krate;
use policy_parts::entries::Licensees;
use policy_parts::spec::{HasSpec, PackageSpec};
use policy_parts::{FileSources, LintLevel, Private};
use spdx_core::Expression;
use url::Url;

/// Addresses in order.
pub type Urls = ListOf<Url>;

/// The expression that a policy or its exceptions file gives some crates, and the files that it was read from.
#[derive(Drop)]
pub struct ValidClarification {
    /// The crates that it is for.
    pub spec: PackageSpec,
    /// Where the expression's text begins in its file.
    pub expr_offset: usize,
    /// The place of the expression's string, where that has escapes; the offset means nothing then.
    pub whole: Option<Span>,
    pub expression: Expression,
    /// The files by their paths; those of equal paths as they are in the file.
    pub license_files: FileSources,
    /// The file that it is in: the policy's, or that of its exceptions.
    pub file_id: FileId,
    /// Whether it is one of the exceptions file.
    pub overlay: bool,
}

/// Licensees that a policy allows some crates.
#[derive(Drop)]
#[derive_where(PartialEq, Eq)]
pub struct ValidException {
    /// The crates that it is for.
    pub spec: PackageSpec,
    /// What they may have, as it is in the file.
    pub allowed: Licensees,
    /// The files that a crate must have for it to count, by their paths; those of equal paths as they are in
    /// the file. None without the key.
    pub license_files: FileSources,
    /// The file that it is in: the policy's, or that of its exceptions.
    pub file_id: FileId,
}

/// The clarifications of the policy, as they are there, and then those of its exceptions file.
pub type ValidClarifications = ListOf<ValidClarification>;

/// The exceptions of the policy, as they are there, and then those of its exceptions file.
pub type ValidExceptions = ListOf<ValidException>;

/// A policy of licences, without what was found wrong with it.
#[derive(Drop)]
pub struct ValidConfig {
    /// The policy's file.
    pub file_id: FileId,
    /// With 3 each exception that holds for a crate counts, and else the first that matches it.
    pub version: i32,
    pub private: Private,
    /// What is asked for where an allowed licensee allows no term.
    pub unused_allowed_license: LintLevel,
    /// What is asked for where an exception allows no term.
    pub unused_license_exception: LintLevel,
    /// The least score of a text that is taken as a licence, in hundredths.
    pub confidence_threshold: i64,
    /// What each crate may have, by printed bytes; equals as they are in the policy.
    pub allowed: Licensees,
    pub clarifications: ValidClarifications,
    pub exceptions: ValidExceptions,
    /// The addresses of the private table that could be read, in normal form.
    pub ignore_sources: Urls,
    pub include_dev: bool,
    pub include_build: bool,
}

impl HasSpec for ValidClarification {
    ghost spec_of = { λ clarification. clarification.spec };

    fn spec(&self) -> &PackageSpec {
        &self.spec
    }
}

impl HasSpec for ValidException {
    ghost spec_of = { λ exception. exception.spec };

    fn spec(&self) -> &PackageSpec {
        &self.spec
    }
}

/// Whether a crate comes from one of some addresses exactly.
fn is_from_any(krate: &Krate, addresses: &[Url]) -> bool
    ensures { IsTrue result
        ↔ Any (λ address. SourceMatches true krate.now.source address) addresses.now }
{
    addresses
        .iter()
        .any(|address| krate.matches_url(address, true))
}

impl ValidConfig {
    /// Whether a crate is passed over: private crates are, and it is published at most to private registries,
    /// or comes from one of the addresses exactly.
    pub fn is_private(&self, krate: &Krate) -> bool
        ensures { IsTrue result ↔ IsPrivate (policy_of self.now) (record_of krate.now) }
    {
        self.private.ignore
            && (krate.is_private(&self.private.registries)
                || is_from_any(krate, self.ignore_sources.items()))
    }
}
