//! Findings of gathering, with what they say and the places that they point at.
ghost use Rattle.std.specs.Prelude.{◌≡◌, ◌++◌, ◌∷◌, [], IfOk, IfSome, OnOk, All, map};
ghost use Rattle.std.specs.List.{zip};
ghost use Rattle.std.specs.Option.{option_map, option_to_list};
ghost use Rattle.graph_core.specs.Krate.{record_of};
ghost use Rattle.gather_core.specs.findings.Findings as spec;
ghost use Rattle.gather_core.specs.findings.Findings.{FaultFits, failure, label_of};
ghost use Rattle.gather_core.specs.findings.Views.{lent_text};

use crate::findings::marks::span_at;
use deny_text::{ListOf, Span};
use diag_core::licenses::Code;
use diag_core::{Coord, Diag, Diagnostic, DiagnosticCode, FileId, Label, Severity};
use graph_core::Krate;
use spdx_core::ParseError;
use std::alloc::{AllocError, Global};
use std::fmt::Write;

/// Findings in order.
pub type Diags = ListOf<Diag>;

/// A diagnostic with one more label, where there is one.
fn labelled(diag: Diagnostic, label: Option<Label>) -> Result<Diagnostic, AllocError>
    ensures { IfOk result (λ labelled.
        labelled ≡ record diag { labels = diag.labels ++ option_to_list label }) }
{
    match label {
        Some(label) => diag.with_label(label),
        None => Ok(diag),
    }
}

/// A warning of the licence check.
fn warning(
    alloc: Global,
    code: Code,
    message: &str,
    label: Option<Label>,
) -> Result<Diag, AllocError>
    ensures { IfOk result (λ finding.
        finding ≡ spec.warning code message.now (option_to_list label)) }
{
    let plain = Diagnostic::new(alloc, Severity::Warning).with_message(message)?;
    let diag = labelled(plain, label)?;
    Diag::new(diag, Some(DiagnosticCode::License(code)))
}

/// A place that adds to a finding, with what is said of it.
fn label(alloc: Global, at: Coord, message: &str) -> Result<Label, AllocError>
    ensures { IfOk result (λ label. label ≡ label_of at message.now) }
{
    Label::secondary(alloc, at.file, at.span).with_message(message)
}

/// A file of a clarification that is not there, by its path in the clarification's file.
pub fn missing_file(alloc: Global, path: Coord) -> Result<Diag, AllocError>
    ensures { IfOk result (λ finding. finding ≡ spec.missing_file path) }
{
    let label = label(alloc, path, "")?;
    warning(
        alloc,
        Code::MissingClarificationFile,
        "unable to locate specified license file",
        Some(label),
    )
}

/// A fault in a field that is at a place.
fn field_fault(alloc: Global, field: Coord, fault: ParseError) -> Result<Diag, AllocError>
    requires { FaultFits field fault }
    ensures { IfOk result (λ finding. finding ≡ spec.field_fault field fault) }
{
    let span = Span {
        start: field.span.start + fault.span.start,
        end: field.span.start + fault.span.end,
    };
    let at = Coord {
        file: field.file,
        span,
    };
    let label = label(alloc, at, fault.reason.as_str())?;
    warning(
        alloc,
        Code::ParseError,
        "error parsing SPDX license expression",
        Some(label),
    )
}

fn empty_field(alloc: Global, at: Coord) -> Result<Diag, AllocError>
    ensures { IfOk result (λ finding. finding ≡ spec.empty_field at) }
{
    let label = label(alloc, at, "empty field")?;
    warning(
        alloc,
        Code::EmptyLicenseField,
        "license field was present but empty",
        Some(label),
    )
}

/// The bytes that a message has room for from the start.
const MESSAGE_ROOM: usize = 128;

fn no_field(alloc: Global, krate: &Krate) -> Result<Diag, AllocError>
    ensures { IfOk result (λ finding. finding ≡ spec.no_field (record_of krate.now)) }
{
    let mut message = String::with_capacity(alloc, MESSAGE_ROOM)?;
    write!(
        message,
        "license expression was not specified in manifest for crate '{krate}'"
    )?;
    warning(alloc, Code::NoLicenseField, &message, None)
}

/// One failure, by what is said of it and where the synthetic manifest writes it.
fn failure(alloc: Global, file: FileId, words: &str, span: Span) -> Result<Diag, AllocError>
    ensures { IfOk result (λ finding. finding ≡ failure file (words.now, span)) }
{
    let label = label(alloc, Coord { file, span }, words)?;
    warning(alloc, Code::GatherFailure, "", Some(label))
}

fn unlicensed(alloc: Global, name: Coord) -> Result<Diag, AllocError>
    ensures { IfOk result (λ finding. finding ≡ spec.unlicensed_finding name) }
{
    let label = Label::primary(alloc, name.file, name.span);
    warning(
        alloc,
        Code::Unlicensed,
        "a valid license expression could not be retrieved for the crate",
        Some(label),
    )
}

/// Appends the faults of a field that is at a place.
fn push_faults(
    alloc: Global,
    diags: &mut Diags,
    field: Coord,
    faults: &[ParseError],
) -> Result<(), AllocError>
    requires { All (FaultFits field) faults.now }
    ensures { OnOk result (diags.new ≡ diags.old ++ map (spec.field_fault field) faults.now) }
{
    'faults: for fault in faults {
        let finding = field_fault(alloc, field, *fault)?;
        diags.push(finding)?;
    }
    Ok(())
}

fn one(alloc: Global, finding: Diag) -> Result<Diags, AllocError>
    ensures { IfOk result (λ diags. diags ≡ finding ∷ []) }
{
    let mut diags = Diags::new(alloc);
    diags.push(finding)?;
    Ok(diags)
}

/// Of an empty field.
fn empty_findings(
    alloc: Global,
    krate: &Krate,
    location: Option<Coord>,
) -> Result<Diags, AllocError>
    ensures { IfOk result (λ diags. diags ≡ spec.empty_findings (record_of krate.now) location) }
{
    match location {
        Some(at) => {
            let finding = empty_field(alloc, at)?;
            one(alloc, finding)
        }
        None => {
            let finding = no_field(alloc, krate)?;
            one(alloc, finding)
        }
    }
}

/// Of the faults of a field that is at a place.
fn fault_findings(
    alloc: Global,
    place: Option<Coord>,
    faults: &[ParseError],
) -> Result<Diags, AllocError>
    requires { IfSome place (λ at. All (FaultFits at) faults.now) }
    ensures { IfOk result (λ diags. diags ≡ spec.fault_findings place faults.now) }
{
    let mut diags = Diags::new(alloc);
    match place {
        Some(at) => {
            push_faults(alloc, &mut diags, at, faults)?;
            Ok(diags)
        }
        None => Ok(diags),
    }
}

/// By the field: its faults, or that it is empty, or missing. Its place is the location, or else that in the
/// synthetic manifest.
pub(crate) fn field_findings(
    alloc: Global,
    krate: &Krate,
    location: Option<Coord>,
    faults: &[ParseError],
    place: Option<Coord>,
) -> Result<Diags, AllocError>
    requires { IfSome place (λ at. All (FaultFits at) faults.now) }
    ensures { let krate = record_of krate.now in IfOk result (λ diags. diags
        ≡ spec.field_findings krate location faults.now place krate.license) }
{
    match &krate.license {
        Some(field) => {
            if field.as_str().is_empty() {
                empty_findings(alloc, krate, location)
            } else {
                fault_findings(alloc, place, faults)
            }
        }
        None => {
            let finding = no_field(alloc, krate)?;
            one(alloc, finding)
        }
    }
}

/// Appends a finding of a failure, where the synthetic manifest writes it.
fn push_failure(
    alloc: Global,
    diags: &mut Diags,
    file: FileId,
    words: &str,
    span: Option<Span>,
) -> Result<(), AllocError>
    ensures { OnOk result (diags.new ≡ diags.old
        ++ option_to_list (option_map (λ place. failure file (words.now, place)) span)) }
{
    match span {
        Some(span) => {
            let finding = failure(alloc, file, words, span)?;
            diags.push(finding)
        }
        None => Ok(()),
    }
}

/// Appends a finding of each failure that the synthetic manifest writes, in order.
pub(crate) fn push_failures(
    alloc: Global,
    diags: &mut Diags,
    file: FileId,
    words: &[&'static str],
    spans: &[Span],
) -> Result<(), AllocError>
    ensures { OnOk result (diags.new
        ≡ diags.old ++ map (failure file) (zip (map lent_text words.now) spans.now)) }
{
    'words: for (place, said) in words.iter().enumerate() {
        push_failure(alloc, diags, file, said, span_at(spans, place))?;
    }
    Ok(())
}

/// Appends that there is no expression, at the name in the synthetic manifest.
pub(crate) fn push_unlicensed(
    alloc: Global,
    diags: &mut Diags,
    name: Option<Coord>,
) -> Result<(), AllocError>
    ensures { OnOk result (diags.new ≡ diags.old ++ option_to_list (option_map spec.unlicensed_finding name)) }
{
    match name {
        Some(at) => {
            let finding = unlicensed(alloc, at)?;
            diags.push(finding)
        }
        None => Ok(()),
    }
}
