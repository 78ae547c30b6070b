//! Policies that are validated.
ghost use Rattle.std.specs.Prelude.{◌≡◌, ◌++◌, ℕ, List, IfOk, OnOk};
ghost use Rattle.diag_core.specs.declared.diagnostic.Diagnostic.{Diagnostic as DiagnosticOf};
ghost use Rattle.deny_text.specs.Fronts.{StandsInFront};
ghost use Rattle.policy_core.specs.validate.Order.{PutsPolicyInOrder};
ghost use Rattle.policy_core.specs.validate.Valid.{valid_part, validation_findings};

use crate::config::Config;
use crate::valid::ValidConfig;
use crate::validate::addresses::judge_addresses;
use crate::validate::clarifications::judge_clarifications;
use crate::validate::entries::{tell_versions, valid_exceptions};
use crate::validate::findings::tell_removed;
use crate::validate::order::sort_licensees;
use diag_core::FileId;
use diag_core::lists::{Diagnostics, ValidationContext};
use spdx_core::Catalog;
use std::alloc::{AllocError, Global};

/// A configuration that has its shape, and may still be wrong.
pub trait UnvalidatedConfig<X> {
    /// What is left once the findings are reported.
    type ValidCfg;

    /// What is valid of it, in the file of this number.
    ghost is_valid: { X → ℕ → Self → Self.ValidCfg → Type 0 };

    /// What is found wrong with it there, in order.
    ghost findings: { X → ℕ → Self → List DiagnosticOf };

    /// Tells what is wrong, behind the findings so far, and keeps the rest. It is refused for want of memory
    /// alone; some findings may have come then, behind those so far.
    fn validate(
        self,
        alloc: Global,
        ctx: ValidationContext<'_>,
        context: &X,
    ) -> Result<Self::ValidCfg, AllocError>
        ensures valid { IfOk result (is_valid context.now ctx.entry.cfg_id self) }
        ensures told { OnOk result (ctx.exit.1.1.0.now
            ≡ ctx.entry.diagnostics.now ++ findings context.now ctx.entry.cfg_id self) }
        ensures front { StandsInFront ctx.entry.diagnostics.now ctx.exit.1.1.0.now }
        ensures files { ctx.exit.1.0.now ≡ ctx.entry.files.now };
}

/// What is valid of a policy of this file; what is wrong with it goes behind the findings so far.
fn validate_config<C: Catalog>(
    alloc: Global,
    config: Config,
    file: FileId,
    catalog: &C,
    found: &mut Diagnostics,
) -> Result<ValidConfig, AllocError>
    ensures valid { IfOk result (PutsPolicyInOrder (valid_part (C.lists catalog.now) file config)) }
    ensures told { OnOk result (found.new
        ≡ found.old ++ validation_findings (C.lists catalog.now) file config) }
    ensures front { StandsInFront found.old found.new }
{
    let sources = config.private.ignore_sources.items();
    let ignore_sources = judge_addresses(alloc, file, sources, found)?;
    let clarifications = judge_clarifications(alloc, file, config.clarify, catalog, found)?;
    tell_removed(alloc, file, config.deprecated_spans.items(), found)?;
    tell_versions(
        alloc,
        config.version,
        file,
        config.exceptions.items(),
        found,
    )?;
    let exceptions = valid_exceptions(alloc, file, config.exceptions)?;
    Ok(ValidConfig {
        file_id: file,
        version: config.version,
        private: config.private,
        unused_allowed_license: config.unused_allowed_license,
        unused_license_exception: config.unused_license_exception,
        confidence_threshold: config.confidence_threshold.0,
        allowed: sort_licensees(config.allow)?,
        clarifications,
        exceptions,
        ignore_sources,
        include_dev: config.include_dev,
        include_build: config.include_build,
    })
}

/// Addresses that can be read are kept in normal form, and clarifications whose expressions are read in
/// strict mode; the others are reported, then each key that was removed, and then each exception that names
/// files under another version than 3. What is allowed is sorted by printed bytes, the files of clarifications
/// and exceptions by their paths, and no entry is lost.
impl<C: Catalog> UnvalidatedConfig<C> for Config {
    type ValidCfg = ValidConfig;

    ghost is_valid = { λ catalog file config. PutsPolicyInOrder (valid_part (C.lists catalog) file config) };

    ghost findings = { λ catalog file config. validation_findings (C.lists catalog) file config };

    fn validate(
        self,
        alloc: Global,
        ctx: ValidationContext<'_>,
        catalog: &C,
    ) -> Result<ValidConfig, AllocError> {
        let ValidationContext {
            cfg_id,
            files: _,
            diagnostics,
        } = ctx;
        validate_config(alloc, self, cfg_id, catalog, diagnostics)
    }
}
