//! Clarifications.
ghost use Rattle.std.specs.Prelude.{◌≡◌, ◌++◌, false, IfOk, OnOk};
ghost use Rattle.std.specs.List.{AllZip};
ghost use Rattle.deny_text.specs.Fronts.{StandsInFront};
ghost use Rattle.policy_core.specs.validate.Order.{AddsInOrder, PutsFilesInOrder, PutsJudgedInOrder};
ghost use Rattle.policy_core.specs.validate.Valid as spec;
ghost use Rattle.policy_core.specs.validate.Valid.{clarification_judged, kept_by, findings_by_each};

use crate::valid::{ValidClarification, ValidClarifications};
use crate::validate::findings::{ItemOrFinding, error_at, push_judged};
use crate::validate::order::sort_files;
use deny_text::Span;
use diag_core::lists::Diagnostics;
use diag_core::{Diagnostic, FileId};
use policy_parts::entries::{Clarification, Clarifications};
use spdx_core::{Catalog, ExprError, Expression, ParseError, ParseMode};
use std::alloc::{AllocError, Global};

/// A place in the expression's text, as a place in the file. Where the string has escapes it is the whole
/// string.
fn place_in(clarification: &Clarification, place: Span) -> Span
    ensures { result ≡ spec.place_in clarification.now place }
{
    let whole = clarification.expression.span;
    if clarification.escapes {
        whole
    } else {
        Span {
            start: whole.start.saturating_add(place.start),
            end: whole.start.saturating_add(place.end),
        }
    }
}

/// What is wrong with a clarification's expression.
fn no_expression(
    alloc: Global,
    file: FileId,
    clarification: &Clarification,
    fault: ParseError,
) -> Result<Diagnostic, AllocError>
    ensures { IfOk result (λ diag. diag ≡ spec.no_expression file clarification.now fault) }
{
    let place = place_in(clarification, fault.span);
    let message = "unable to parse license expression";
    error_at(alloc, file, message, place, fault.reason.as_str())
}

/// The clarification with its expression and its file, and its files in order.
fn with_expression(
    file: FileId,
    overlay: bool,
    clarification: Clarification,
    expression: Expression,
) -> Result<ValidClarification, AllocError>
    ensures { IfOk result
        (PutsFilesInOrder (spec.with_expression file overlay clarification expression)) }
{
    let place = clarification.expression.span;
    let whole = if clarification.escapes {
        Some(place)
    } else {
        None
    };
    Ok(ValidClarification {
        spec: clarification.spec,
        expr_offset: place.start,
        whole,
        expression,
        license_files: sort_files(clarification.license_files)?,
        file_id: file,
        overlay,
    })
}

/// A clarification whose expression is read, or its first fault.
#[tactic(auto, using(crate::proofs::validate::Clarified::judged_good, crate::proofs::validate::Clarified::judged_bad))]
fn judge_clarification<C: Catalog>(
    alloc: Global,
    file: FileId,
    overlay: bool,
    clarification: Clarification,
    catalog: &C,
) -> Result<ItemOrFinding<ValidClarification>, AllocError>
    ensures { IfOk result
        (PutsJudgedInOrder (clarification_judged (C.lists catalog.now) file overlay clarification)) }
{
    let text = clarification.expression.value.as_str();
    match Expression::parse_mode(alloc, text, ParseMode::STRICT, catalog) {
        Ok(expression) => Ok(Ok(with_expression(file, overlay, clarification, expression)?)),
        Err(ExprError::Parse(fault)) => {
            Ok(Err(no_expression(alloc, file, &clarification, fault)?))
        }
        Err(ExprError::Memory) => Err(AllocError),
    }
}

/// Puts the clarifications of a file whose expressions are read behind the others, as they are there, each with
/// its files in order; each other one is reported behind the findings so far. The exceptions file's are
/// overlays. Where memory is wanted those so far stay, in front of what was added.
#[tactic(auto, using(crate::proofs::validate::AddedLemmas::adds_none, crate::proofs::validate::AddedLemmas::added_behind))]
pub fn judge_clarifications<C: Catalog>(
    alloc: Global,
    file: FileId,
    overlay: bool,
    clarifications: Clarifications,
    catalog: &C,
    valid: &mut ValidClarifications,
    found: &mut Diagnostics,
) -> Result<(), AllocError>
    ensures kept { OnOk result (AddsInOrder PutsFilesInOrder
        (kept_by (clarification_judged (C.lists catalog.now) file overlay) clarifications) valid.old valid.new) }
    ensures told { OnOk result (found.new ≡ found.old
        ++ findings_by_each (clarification_judged (C.lists catalog.now) file overlay) clarifications) }
    ensures valid_front { StandsInFront valid.old valid.new }
    ensures front { StandsInFront found.old found.new }
{
    'clarifications: for clarification in clarifications.into_vec() {
        let judged = judge_clarification(alloc, file, overlay, clarification, catalog)?;
        push_judged(judged, valid, found)?;
    }
    Ok(())
}

/// The clarifications of a policy's own file whose expressions are read, each with its files in order.
pub(crate) fn valid_clarifications<C: Catalog>(
    alloc: Global,
    file: FileId,
    clarifications: Clarifications,
    catalog: &C,
    found: &mut Diagnostics,
) -> Result<ValidClarifications, AllocError>
    ensures kept { IfOk result (AllZip PutsFilesInOrder
        (kept_by (clarification_judged (C.lists catalog.now) file false) clarifications)) }
    ensures told { OnOk result (found.new ≡ found.old
        ++ findings_by_each (clarification_judged (C.lists catalog.now) file false) clarifications) }
    ensures front { StandsInFront found.old found.new }
{
    let mut valid = ValidClarifications::new(alloc);
    judge_clarifications(
        alloc,
        file,
        false,
        clarifications,
        catalog,
        &mut valid,
        found,
    )?;
    Ok(valid)
}
