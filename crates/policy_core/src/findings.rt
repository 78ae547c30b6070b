//! What is reported of a policy's file and of its exceptions file.
ghost use Rattle.std.specs.Prelude.{◌≡◌, [], ◌∷◌, ◌++◌, codes, map, IfOk, OnOk};
ghost use Rattle.std.specs.Option.{option_copied};
ghost use Rattle.deny_text.specs.Fronts.{StandsInFront};
ghost use Rattle.toml_subset.specs.shapes.ShapeViews.{fault_of};
ghost use Rattle.policy_core.specs.Exceptions as exceptions;
ghost use Rattle.policy_core.specs.Findings as spec;
ghost use Rattle.policy_core.specs.Heard as heard;

use crate::validate::error_at;
use deny_text::Span;
use diag_core::lists::Diagnostics;
use diag_core::{Deprecated, DeprecationReason, Diagnostic, FileId, Label, Severity};
use policy_parts::Target;
use policy_toml::{ShapeError, ShapeErrors};
use std::alloc::{AllocError, Global};
use tree_core::texts::ReadFault;

/// That an exceptions file is the policy itself.
fn itself(alloc: Global, path: &str) -> Result<Diagnostic, AllocError>
    ensures { IfOk result (λ diag. diag ≡ exceptions.itself_finding path.now) }
{
    let note = format!(in alloc; "path = '{path}'")?;
    Diagnostic::new(alloc, Severity::Error)
        .with_message("exceptions file is the policy itself")?
        .with_note(note.as_str())
}

/// Tells that an exceptions file is the policy itself.
pub(crate) fn tell_itself(
    alloc: Global,
    path: &str,
    found: &mut Diagnostics,
) -> Result<(), AllocError>
    ensures ok { OnOk result (found.new ≡ found.old ++ exceptions.itself_finding path.now ∷ []) }
    ensures front { StandsInFront found.old found.new }
{
    let diag = itself(alloc, path)?;
    found.push(diag)
}

/// The words for why no text was read.
fn fault_words(fault: ReadFault) -> &'static str
    ensures { result.now ≡ heard.fault_words fault }
{
    match fault {
        ReadFault::Failed { .. } => "read failed",
        ReadFault::Absent => "not found",
        ReadFault::Folder => "is of the wrong kind",
        ReadFault::NotUtf8 { .. } => "not UTF-8",
    }
}

/// That an exceptions file was not read.
fn unread(alloc: Global, path: &str, fault: ReadFault) -> Result<Diagnostic, AllocError>
    ensures { IfOk result (λ diag. diag ≡ exceptions.unread_finding path.now (heard.fault_words fault)) }
{
    let note = format!(in alloc; "path = '{path}'")?;
    let words = fault_words(fault);
    let error = format!(in alloc; "error = {words}")?;
    Diagnostic::new(alloc, Severity::Error)
        .with_message("failed to read exceptions override")?
        .with_note(note.as_str())?
        .with_note(error.as_str())
}

/// Tells that an exceptions file was not read.
pub(crate) fn tell_unread(
    alloc: Global,
    path: &str,
    fault: ReadFault,
    found: &mut Diagnostics,
) -> Result<(), AllocError>
    ensures ok { OnOk result (found.new
        ≡ found.old ++ exceptions.unread_finding path.now (heard.fault_words fault) ∷ []) }
    ensures front { StandsInFront found.old found.new }
{
    let diag = unread(alloc, path, fault)?;
    found.push(diag)
}

/// That an exceptions file has a syntax fault.
pub(crate) fn syntax(alloc: Global, file: FileId, place: Span) -> Result<Diagnostic, AllocError>
    ensures { IfOk result (λ diag. diag ≡ exceptions.syntax_finding file place) }
{
    error_at(alloc, file, "syntax error", place, "")
}

/// A fault of an exceptions file's shape.
fn shape_fault(alloc: Global, file: FileId, fault: &ShapeError) -> Result<Diagnostic, AllocError>
    ensures { IfOk result (λ diag. diag ≡ exceptions.shape_diagnostic file (fault_of fault.now)) }
{
    let message = format!(in alloc; "{fault}")?;
    error_at(alloc, file, message.as_str(), fault.span, "")
}

fn tell_faults(
    alloc: Global,
    file: FileId,
    faults: &[ShapeError],
    found: &mut Diagnostics,
) -> Result<(), AllocError>
    ensures ok { OnOk result (found.new
        ≡ found.old ++ map (λ fault. exceptions.shape_diagnostic file (fault_of fault)) faults.now) }
    ensures front { StandsInFront found.old found.new }
{
    'faults: for fault in faults {
        let diag = shape_fault(alloc, file, fault)?;
        found.push(diag)?;
    }
    Ok(())
}

/// Tells of each fault of an exceptions file's shape. Where memory is wanted the findings so far stay, in front of
/// those that came.
pub fn tell_shape(
    alloc: Global,
    file: FileId,
    faults: &ShapeErrors,
    found: &mut Diagnostics,
) -> Result<(), AllocError>
    ensures ok { OnOk result (found.new ≡ found.old ++ map (exceptions.shape_diagnostic file) faults.now) }
    ensures front { StandsInFront found.old found.new }
{
    tell_faults(alloc, file, faults.items(), found)
}

/// That a policy is absent, by the path where it was to be.
pub(crate) fn absent(alloc: Global, path: Option<&str>) -> Result<Diagnostic, AllocError>
    ensures { IfOk result (λ diag. diag ≡ spec.absence_finding (option_copied path.entry)) }
{
    let blank = Diagnostic::new(alloc, Severity::Warning);
    match path {
        Some(path) => {
            let message = format!(in alloc;
                "config path '{path}' doesn't exist, falling back to default config"
            )?;
            blank.with_message(message.as_str())
        }
        None => {
            blank.with_message("unable to find a config path, falling back to default config")
        }
    }
}

fn target(alloc: Global, file: FileId, target: &Target) -> Result<Diagnostic, AllocError>
    ensures { IfOk result (λ diag. diag ≡ spec.target_finding file target.now) }
{
    let label = Label::primary(alloc, file, target.filter.span);
    Diagnostic::new(alloc, Severity::Warning)
        .with_message("no platform filter is applied")?
        .with_label(label)
}

/// Tells of each target that it has no effect.
pub(crate) fn tell_targets(
    alloc: Global,
    file: FileId,
    targets: &[Target],
    found: &mut Diagnostics,
) -> Result<(), AllocError>
    ensures ok { OnOk result (found.new ≡ found.old ++ map (spec.target_finding file) targets.now) }
    ensures front { StandsInFront found.old found.new }
{
    'targets: for one in targets {
        let diag = target(alloc, file, one)?;
        found.push(diag)?;
    }
    Ok(())
}

/// That a key was moved to a table.
pub(crate) fn moved(
    alloc: Global,
    table: &'static str,
    file: FileId,
    key: Span,
) -> Result<Diagnostic, AllocError>
    ensures { IfOk result (λ diag. diag ≡ spec.moved_key_finding table.now file key) }
{
    let deprecated = Deprecated {
        key,
        reason: DeprecationReason::Moved(table),
        file_id: file,
    };
    deprecated.into_diagnostic(alloc)
}

/// Tells of each key that was moved to the table `graph`.
pub(crate) fn tell_moved(
    alloc: Global,
    file: FileId,
    keys: &[Span],
    found: &mut Diagnostics,
) -> Result<(), AllocError>
    ensures ok { OnOk result (found.new ≡ found.old ++ map (spec.moved_key_finding (codes "graph") file) keys.now) }
    ensures front { StandsInFront found.old found.new }
{
    'keys: for key in keys {
        let diag = moved(alloc, "graph", file, *key)?;
        found.push(diag)?;
    }
    Ok(())
}
