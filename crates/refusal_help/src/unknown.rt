//! Whether a policy was refused for a licence that the catalogue lacks.
//! Called by `push_help` of `help`; findings and labels may be searched in any order, one is enough.
ghost use Rattle.std.specs.Prelude.{◌≡◌};
ghost use Rattle.std.specs.List.{list_any};
ghost use Rattle.toml_subset.specs.shapes.ShapeViews.{fault_of};
ghost use Rattle.refusal_help.specs.Unknown as spec;

use deny_text::ListOf;
use diag_core::{Diagnostic, Label};
use run_found::Error;
use spdx_terms::ParseReason;
use toml_subset::shapes::{ErrorKind, ShapeError, ShapeErrors};

/// Whether words tell such a licence.
fn is_unknown(words: &str) -> bool
    ensures { result ≡ spec.is_unknown words.now }
{
    words == ParseReason::UnknownTerm.as_str()
}

fn is_unknown_fault(fault: &ShapeError) -> bool
    ensures { result ≡ spec.is_unknown_fault (fault_of fault.now) }
{
    match &fault.kind {
        ErrorKind::Custom(words) => is_unknown(words.as_str()),
        _ => false,
    }
}

fn any_unknown(faults: &[ShapeError]) -> bool
    ensures { result ≡ list_any (λ fault. spec.is_unknown_fault (fault_of fault)) faults.now }
{
    faults.iter().any(|fault| is_unknown_fault(fault))
}

fn has_unknown_fault(faults: &ShapeErrors) -> bool
    ensures { result ≡ list_any spec.is_unknown_fault faults.now }
{
    any_unknown(faults.items())
}

fn is_unknown_label(label: &Label) -> bool
    ensures { result ≡ spec.is_unknown_label label.now }
{
    is_unknown(label.message.as_str())
}

fn any_unknown_label(labels: &[Label]) -> bool
    ensures { result ≡ list_any spec.is_unknown_label labels.now }
{
    labels.iter().any(|label| is_unknown_label(label))
}

fn is_unknown_finding(finding: &Diagnostic) -> bool
    ensures { result ≡ spec.is_unknown_finding finding.now }
{
    is_unknown(finding.message.as_str()) || any_unknown_label(finding.labels.items())
}

fn any_unknown_finding(found: &[Diagnostic]) -> bool
    ensures { result ≡ list_any spec.is_unknown_finding found.now }
{
    found.iter().any(|finding| is_unknown_finding(finding))
}

fn has_unknown_finding(found: &ListOf<Diagnostic>) -> bool
    ensures { result ≡ list_any spec.is_unknown_finding found.now }
{
    any_unknown_finding(found.items())
}

pub(crate) fn names_unknown(error: &Error) -> bool
    ensures { result ≡ spec.names_unknown error.now }
{
    match error {
        Error::ConfigShape(faults) => has_unknown_fault(faults),
        Error::ConfigInvalid(found) => has_unknown_finding(found),
        _ => false,
    }
}
