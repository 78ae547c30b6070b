//! The last pack: what of a policy no crate needed.
//! Called by `finish` of `crate_check`; flags may be looked up in any way, the order of findings is fixed.
ghost use Rattle.std.specs.Prelude.{◌≡◌, ◌∷◌, [], List, IfOk, OnOk, map, if◌then◌else◌};
ghost use Rattle.spdx_core.specs.declared.certificates.verdict.Hit.{Hit};
ghost use Rattle.check_core.specs.unused.Flags.{flag_at, flags_by, unused_pack, with_more};
ghost use Rattle.check_core.specs.unused.Unused as spec;
ghost use Rattle.check_core.specs.unused.Unused.{exception_findings, license_findings, own_findings};
ghost use Rattle.check_core.specs.unused.Unused.{severity_asked, items_without_hit, unused_exception, unused_license};

use crate::findings::finding;
use crate::unused::encountered::EntryHits;
use diag_core::licenses::Code;
use diag_core::{Check, Diag, FileId, Label, Labels, Notes, Pack, Severity};
use policy_core::valid::{AllowedPlace, CountedPolicy, ExceptionPlace};
use policy_parts::LintLevel;
use std::alloc::{AllocError, Global};
use std::sync::ledger::Ledger;

/// The level of what is reported; nothing is reported where the policy allows it.
fn severity_of(level: LintLevel) -> Option<Severity>
    ensures { result ≡ severity_asked level }
{
    match level {
        LintLevel::Allow => None,
        LintLevel::Warn => Some(Severity::Warning),
        LintLevel::Deny => Some(Severity::Error),
    }
}

/// That an entry of the policy was not encountered.
fn unused(
    alloc: Global,
    severity: Severity,
    code: Code,
    message: &str,
    label: Label,
) -> Result<Diag, AllocError>
    ensures { IfOk result (λ told. told ≡ spec.unused_finding severity code message.now label) }
{
    let mut labels = Labels::new(alloc);
    labels.push(label)?;
    finding(alloc, severity, code, message, labels, Notes::new(alloc))
}

/// That an allowed licensee of a file allows no term.
fn license_told(
    alloc: Global,
    severity: Severity,
    file: FileId,
    licensee: &AllowedPlace<'_>,
) -> Result<Diag, AllocError>
    ensures { IfOk result (λ told. told ≡ unused_license severity file licensee.now) }
{
    let label = Label::primary(alloc, file, licensee.span()).with_message(
        "unmatched license allowance",
    )?;
    unused(
        alloc,
        severity,
        Code::LicenseNotEncountered,
        "license was not encountered",
        label,
    )
}

/// That an exception allows no term.
fn exception_told(
    alloc: Global,
    severity: Severity,
    exception: &ExceptionPlace<'_>,
) -> Result<Diag, AllocError>
    ensures { IfOk result (λ told. told ≡ unused_exception severity exception.now) }
{
    let label = Label::primary(alloc, exception.file_id(), exception.span()).with_message(
        "unmatched license exception",
    )?;
    unused(
        alloc,
        severity,
        Code::LicenseExceptionNotEncountered,
        "license exception was not encountered",
        label,
    )
}

/// Appends that a licensee allows no term, unless it is a hit.
fn push_license(
    alloc: Global,
    pack: &mut Pack,
    severity: Severity,
    file: FileId,
    licensee: &AllowedPlace<'_>,
    is_hit: bool,
) -> Result<(), AllocError>
    ensures { OnOk result (pack.new ≡ with_more pack.old (map (unused_license severity file)
        (if is_hit then [] else licensee.now ∷ []))) }
{
    if is_hit {
        return Ok(());
    }
    let told = license_told(alloc, severity, file, licensee)?;
    pack.push(told)?;
    Ok(())
}

/// Appends that an exception allows no term, unless it is in another file.
fn push_own(
    alloc: Global,
    pack: &mut Pack,
    severity: Severity,
    file: FileId,
    exception: &ExceptionPlace<'_>,
) -> Result<(), AllocError>
    ensures { OnOk result (pack.new ≡ with_more pack.old (own_findings severity file (exception.now ∷ []))) }
{
    if exception.file_id() != file {
        return Ok(());
    }
    let told = exception_told(alloc, severity, exception)?;
    pack.push(told)?;
    Ok(())
}

/// Appends that an exception allows no term, unless it is a hit or is in another file.
fn push_exception(
    alloc: Global,
    pack: &mut Pack,
    severity: Severity,
    file: FileId,
    exception: &ExceptionPlace<'_>,
    is_hit: bool,
) -> Result<(), AllocError>
    ensures { OnOk result (pack.new ≡ with_more pack.old (own_findings severity file
        (if is_hit then [] else exception.now ∷ []))) }
{
    if is_hit {
        return Ok(());
    }
    push_own(alloc, pack, severity, file, exception)?;
    Ok(())
}

/// Whether the flag of a place is set; behind the end of the list none is.
fn is_set(flags: &[bool], place: usize) -> bool
    ensures { result ≡ flag_at flags.now place }
{
    match flags.get(place) {
        Some(flag) => *flag,
        None => false,
    }
}

/// Appends each allowed licensee that is no hit, in order.
fn push_licenses<L: Ledger>(
    alloc: Global,
    pack: &mut Pack,
    severity: Severity,
    policy: &CountedPolicy<'_, L>,
    flags: &[bool],
) -> Result<(), AllocError>
    ensures { OnOk result (pack.new ≡ with_more pack.old (map (unused_license severity policy.now.file_id)
        (items_without_hit (flag_at flags.now) 0 policy.now.allowed))) }
{
    let file = policy.file_id();
    'licensees: for place in 0..policy.allowed_count() {
        let licensee = policy.allowed_at(place);
        let is_hit = is_set(flags, place);
        push_license(alloc, pack, severity, file, &licensee, is_hit)?;
    }
    Ok(())
}

/// Appends each exception of the policy's own file that is no hit, in order.
fn push_exceptions<L: Ledger>(
    alloc: Global,
    pack: &mut Pack,
    severity: Severity,
    policy: &CountedPolicy<'_, L>,
    flags: &[bool],
) -> Result<(), AllocError>
    ensures { OnOk result (pack.new ≡ with_more pack.old (own_findings severity policy.now.file_id
        (items_without_hit (flag_at flags.now) 0 policy.now.exceptions))) }
{
    let file = policy.file_id();
    'exceptions: for place in 0..policy.exception_count() {
        let exception = policy.exception_at(place);
        let is_hit = is_set(flags, place);
        push_exception(alloc, pack, severity, file, &exception, is_hit)?;
    }
    Ok(())
}

/// Appends each allowed licensee that is no hit, at the level that the policy asks for.
fn push_unused_licenses<L: Ledger>(
    alloc: Global,
    pack: &mut Pack,
    policy: &CountedPolicy<'_, L>,
    flags: &[bool],
) -> Result<(), AllocError>
    ensures { OnOk result (pack.new
        ≡ with_more pack.old (license_findings policy.now (flag_at flags.now))) }
{
    match severity_of(policy.unused_allowed_license()) {
        Some(severity) => {
            push_licenses(alloc, pack, severity, policy, flags)?;
            Ok(())
        }
        None => Ok(()),
    }
}

/// Appends each exception of the policy's own file that is no hit, at the level that the policy asks for.
fn push_unused_exceptions<L: Ledger>(
    alloc: Global,
    pack: &mut Pack,
    policy: &CountedPolicy<'_, L>,
    flags: &[bool],
) -> Result<(), AllocError>
    ensures { OnOk result (pack.new
        ≡ with_more pack.old (exception_findings policy.now (flag_at flags.now))) }
{
    match severity_of(policy.unused_license_exception()) {
        Some(severity) => {
            push_exceptions(alloc, pack, severity, policy, flags)?;
            Ok(())
        }
        None => Ok(()),
    }
}

/// By the flags.
fn pack_of<L: Ledger>(
    alloc: Global,
    policy: &CountedPolicy<'_, L>,
    encountered: &EntryHits,
) -> Result<Pack, AllocError>
    ensures { IfOk result (λ pack. pack ≡ unused_pack policy.now encountered.now) }
{
    let mut pack = Pack::new(alloc, Check::Licenses);
    push_unused_licenses(alloc, &mut pack, policy, encountered.allowed())?;
    push_unused_exceptions(alloc, &mut pack, policy, encountered.exceptions())?;
    Ok(pack)
}

/// What of a policy is no hit, where `encountered` has marked all hits: the allowed licensees, and then the
/// exceptions of the policy's own file, each at the level that the policy asks for. It may be empty.
pub fn last_pack<L: Ledger>(
    alloc: Global,
    policy: &CountedPolicy<'_, L>,
    encountered: &EntryHits,
) -> Result<Pack, AllocError>
    ensures { (hits : List Hit) → encountered.now ≡ flags_by policy.now hits
        → IfOk result (λ pack. pack ≡ spec.last_pack policy.now hits) }
{
    let pack = pack_of(alloc, policy, encountered)?;
    Ok(pack)
}
