//! The verdict on a crate, as a finding.
//! Called by `crate_check`, and `finding` by `unused`; notes may be copied before the labels are made.
ghost use Rattle.std.specs.Prelude.{◌≡◌, IfOk, length};
ghost use Rattle.graph_core.specs.Krate.{record_of};
ghost use Rattle.check_core.specs.findings.Findings as spec;
ghost use Rattle.check_core.specs.findings.Findings.{verdict_labels};
ghost use Rattle.check_core.specs.findings.Places.{PlaceFits};

use crate::findings::label::labels;
use deny_text::Text;
use diag_core::licenses::Code;
use diag_core::{Diag, Diagnostic, DiagnosticCode, Labels, Notes, Severity};
use gather_core::findings::LicenseExprInfo;
use graph_core::Krate;
use spdx_core::Expression;
use spdx_core::certificates::Hit;
use std::alloc::{AllocError, Global};

/// What the licence check tells, about no crate yet.
pub fn finding(
    alloc: Global,
    severity: Severity,
    code: Code,
    message: &str,
    labels: Labels,
    notes: Notes,
) -> Result<Diag, AllocError>
    ensures { IfOk result (λ told. told ≡ spec.finding severity code message.now labels notes) }
{
    let mut diag = Diagnostic::new(alloc, severity).with_message(message)?;
    diag.labels = labels;
    diag.notes = notes;
    Diag::new(diag, Some(DiagnosticCode::License(code)))
}

/// Copies of notes, in order.
fn notes_copy(alloc: Global, notes: &[Text]) -> Result<Notes, AllocError>
    ensures { IfOk result (λ copies. copies ≡ notes.now) }
{
    let mut copies = Notes::new(alloc);
    'notes: for note in notes {
        let copy = Text::copy(alloc, note.as_str())?;
        copies.push(copy)?;
    }
    Ok(copies)
}

/// By whether the expression is accepted.
fn judged_by(
    alloc: Global,
    accepted: bool,
    labels: Labels,
    notes: Notes,
) -> Result<Diag, AllocError>
    ensures { IfOk result (λ told. told ≡ spec.expression_finding accepted labels notes) }
{
    if accepted {
        finding(
            alloc,
            Severity::Note,
            Code::Accepted,
            "license requirements satisfied",
            labels,
            notes,
        )
    } else {
        finding(
            alloc,
            Severity::Error,
            Code::Rejected,
            "failed to satisfy license requirements",
            labels,
            notes,
        )
    }
}

/// Whether an expression is accepted, with its terms in text order, each by its own hit. Hits are at the
/// places of the terms; a term behind their end has none.
pub fn judged(
    alloc: Global,
    accepted: bool,
    expression: &Expression,
    nfo: &LicenseExprInfo,
    hits: &[Option<Hit>],
    notes: &[Text],
) -> Result<Diag, AllocError>
    requires { PlaceFits nfo.now (length expression.now.text) }
    ensures { let labels = verdict_labels expression.now nfo.now hits.now in
        IfOk result (λ told. told ≡ spec.expression_finding accepted labels notes.now) }
{
    let labels = labels(alloc, expression, nfo, hits)?;
    let notes = notes_copy(alloc, notes)?;
    judged_by(alloc, accepted, labels, notes)
}

/// That a crate has no expression.
pub fn unlicensed(alloc: Global, krate: &Krate, notes: &[Text]) -> Result<Diag, AllocError>
    ensures { IfOk result (λ told. told ≡ spec.unlicensed_finding (record_of krate.now) notes.now) }
{
    let message = format!(in alloc; "{krate} is unlicensed")?;
    let notes = notes_copy(alloc, notes)?;
    finding(
        alloc,
        Severity::Error,
        Code::Unlicensed,
        &message,
        Labels::new(alloc),
        notes,
    )
}

/// That the policy passes a crate over.
pub fn skipped(alloc: Global, krate: &Krate) -> Result<Diag, AllocError>
    ensures { IfOk result (λ told. told ≡ spec.skipped_finding (record_of krate.now)) }
{
    let message = format!(in alloc; "skipping private workspace crate '{krate}'")?;
    finding(
        alloc,
        Severity::Note,
        Code::SkippedPrivateWorkspaceCrate,
        &message,
        Labels::new(alloc),
        Notes::new(alloc),
    )
}
