//! What is found of a crate whose licence no clarification settles.
ghost use Rattle.std.specs.Prelude.{◌≡◌, ◌<◌, ◌+◌, ◌^◌, ◌++◌, [], None, Some, length, unwrap_or};
ghost use Rattle.std.specs.Prelude.{IfOk, IfSome, OnOk, All, map, option_copied};
ghost use Rattle.diag_core.specs.File.{Grows};
ghost use Rattle.graph_core.specs.Krate.{record_of};
ghost use Rattle.gather_core.specs.findings.Findings as spec;
ghost use Rattle.gather_core.specs.findings.Findings.{by_field, by_files, failure_findings, field_mark};
ghost use Rattle.gather_core.specs.findings.Findings.{field_place, files_with_synthetic, joined_place, marks_by, points_by};
ghost use Rattle.gather_core.specs.findings.Findings.{points_of, unlicensed_findings};
ghost use Rattle.gather_core.specs.findings.Cuts.{LabelLies, MarksLie, StandsAtCoord, expression_text, labels_of};
ghost use Rattle.gather_core.specs.findings.Cuts.{text_under, texts_by};
ghost use Rattle.gather_core.specs.findings.Premises.{FaultsLie, IsFieldPlaced};
ghost use Rattle.gather_core.specs.findings.Views.{case_view, seen_view};

use crate::findings::case::{ExpressionBasis, SeenFiles, UnclarifiedCrate};
use crate::findings::failures::failures_of;
use crate::findings::findings::{Diags, field_findings, push_failures, push_unlicensed};
use crate::findings::marks::Marks;
use crate::findings::synthesis::synthesize;
use diag_core::{Coord, Files};
use std::alloc::{AllocError, Global};

/// Where the expression of a crate is, and what is found on the way to it.
#[derive(Drop)]
pub struct PlacedFindings {
    /// None where there is no expression.
    pub expression: Option<Coord>,
    pub findings: Diags,
}

/// By the field, which gives the expression and is at its location.
fn find_at(
    alloc: Global,
    case: &UnclarifiedCrate<'_>,
    at: Coord,
) -> Result<PlacedFindings, AllocError>
    requires long { let field = unwrap_or (record_of case.now.krate.now).license [] in
        at.span.end ≡ at.span.start + length field }
    requires lie { let field = unwrap_or (record_of case.now.krate.now).license [] in
        FaultsLie field case.now.faults.now }
    ensures { let krate = record_of case.now.krate.now in IfOk result (λ found. found ≡ record {
      expression = Some at;
      findings = spec.field_findings krate (Some at) case.now.faults.now (Some at) krate.license;
    }) }
{
    let findings = field_findings(alloc, case.krate, Some(at), case.faults, Some(at))?;
    Ok(PlacedFindings {
        expression: Some(at),
        findings,
    })
}

/// By the field, which gives the expression and has no location: it is pointed at in a synthetic manifest.
fn find_without_location(
    alloc: Global,
    files: &mut Files,
    case: &UnclarifiedCrate<'_>,
) -> Result<PlacedFindings, AllocError>
    requires { IsFieldPlaced (case_view case.now) files.old }
    ensures points { let case = case_view case.now in
        let mark = field_mark (marks_by case by_field files.old) in
        IfOk result (λ found. found ≡ record {
          expression = mark;
          findings = spec.field_findings case.krate None case.faults mark case.krate.license;
        }) }
    ensures files { OnOk result (files.new ≡ files_with_synthetic (case_view case.now) by_field files.old) }
    ensures marks { OnOk result (MarksLie (case_view case.now) by_field) }
    ensures grows { Grows files.old files.new }
{
    let seen = SeenFiles::Listed(&[]);
    let marks = synthesize(alloc, files, case.krate, case.folder, None, seen)?;
    let mark = marks.field();
    let findings = field_findings(alloc, case.krate, None, case.faults, mark)?;
    Ok(PlacedFindings {
        expression: mark,
        findings,
    })
}

/// The findings of what failed, and that there is no expression.
fn push_files(
    alloc: Global,
    findings: &mut Diags,
    marks: &Marks,
    seen: SeenFiles<'_>,
    joined: Option<&str>,
) -> Result<Option<Coord>, AllocError>
    ensures expression { IfOk result (λ expression.
        expression ≡ joined_place (option_copied joined.entry) marks.now) }
    ensures findings { let joined = option_copied joined.entry in OnOk result (findings.new
        ≡ findings.old ++ failure_findings (seen_view seen.entry) joined marks.now
        ++ unlicensed_findings joined marks.now) }
{
    let words = failures_of(alloc, seen)?;
    match joined {
        Some(_) => {
            push_failures(alloc, findings, marks.file(), &words, marks.behind(3))?;
            Ok(marks.joined())
        }
        None => {
            push_failures(alloc, findings, marks.file(), &words, marks.behind(2))?;
            push_unlicensed(alloc, findings, marks.name())?;
            Ok(None)
        }
    }
}

/// A place, whose end is a place of 64 bits.
fn there(at: Coord) -> Option<Coord>
    ensures place { result ≡ Some at }
    ensures fits { at.span.end < 2 ^ 64 }
{
    Some(at)
}

/// Where a field is: at its location, or else in the synthetic manifest.
fn field_place(location: Option<Coord>, marks: &Marks) -> Option<Coord>
    ensures place { result ≡ field_place location (field_mark marks.now) }
    ensures fits { IfSome result (λ at. at.span.end < 2 ^ 64) }
{
    match location {
        Some(at) => there(at),
        None => marks.field(),
    }
}

/// By the licence files.
fn find_by_files(
    alloc: Global,
    files: &mut Files,
    case: &UnclarifiedCrate<'_>,
    seen: SeenFiles<'_>,
    joined: Option<&str>,
) -> Result<PlacedFindings, AllocError>
    requires { IsFieldPlaced (case_view case.now) files.old }
    ensures points { let case = case_view case.now in
        let outcome = by_files (seen_view seen.entry) (option_copied joined.entry) in
        IfOk result (λ found. found ≡ points_by case (marks_by case outcome files.old) outcome) }
    ensures files { let outcome = by_files (seen_view seen.entry) (option_copied joined.entry) in
        OnOk result (files.new ≡ files_with_synthetic (case_view case.now) outcome files.old) }
    ensures marks { let outcome = by_files (seen_view seen.entry) (option_copied joined.entry) in
        OnOk result (MarksLie (case_view case.now) outcome) }
    ensures grows { Grows files.old files.new }
{
    let marks = synthesize(alloc, files, case.krate, case.folder, joined, seen)?;
    let place = field_place(case.location, &marks);
    let mut findings = field_findings(alloc, case.krate, case.location, case.faults, place)?;
    let expression = push_files(alloc, &mut findings, &marks, seen, joined)?;
    Ok(PlacedFindings {
        expression,
        findings,
    })
}

/// By what settles the licence.
fn find_points(
    alloc: Global,
    files: &mut Files,
    case: &UnclarifiedCrate<'_>,
) -> Result<PlacedFindings, AllocError>
    requires { IsFieldPlaced (case_view case.now) files.old }
    ensures points { IfOk result (λ found. found ≡ points_of (case_view case.now) files.old) }
    ensures files { OnOk result (files.new ≡ spec.files_with (case_view case.now) files.old) }
    ensures marks { let case = case_view case.now in OnOk result (MarksLie case case.outcome) }
    ensures grows { Grows files.old files.new }
{
    match case.settles {
        ExpressionBasis::Field => match case.location {
            Some(at) => find_at(alloc, case, at),
            None => find_without_location(alloc, files, case),
        },
        ExpressionBasis::Files { seen, joined } => find_by_files(alloc, files, case, seen, joined),
    }
}

/// What is found of a crate, and where its expression is. Where something points into it, a manifest is
/// written in place of the crate's own, and joins the table under a name that no path finds.
pub fn find(
    alloc: Global,
    files: &mut Files,
    case: &UnclarifiedCrate<'_>,
) -> Result<PlacedFindings, AllocError>
    requires { IsFieldPlaced (case_view case.now) files.old }
    ensures points { IfOk result (λ found. found ≡ points_of (case_view case.now) files.old) }
    ensures files { OnOk result (files.new ≡ spec.files_with (case_view case.now) files.old) }
    // each label cuts out what it says: a fault of the field, what failed, the name
    ensures cuts { let case = case_view case.now in IfOk result (λ found.
        map (text_under files.new) (labels_of found.findings) ≡ texts_by case case.outcome) }
    // and lies in its file's text, between characters
    ensures inside { IfOk result (λ found. All (LabelLies files.new) (labels_of found.findings)) }
    // the expression has a place exactly where there is one, and the place cuts out its text
    ensures expression { let case = case_view case.now in IfOk result (λ found.
        StandsAtCoord files.new found.expression (expression_text case case.outcome)) }
    // the files that were there are as they were, also where memory is refused
    ensures grows { Grows files.old files.new }
{
    let points = find_points(alloc, files, case)?;
    Ok(points)
}
