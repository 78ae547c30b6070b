//! What a bill says of the licence of a crate.
//! Called by `packaged` of packages; the terms may be printed in any way that gives these texts.
ghost use Rattle.std.specs.Prelude.{◌≡◌, ◌++◌, IfOk, OnOk, option_map, string_bytes};
ghost use Rattle.std.specs.List.{flat_map};
ghost use Rattle.spdx_printed.specs.Printed.{term_text};
ghost use Rattle.run_bill.specs.Licences as spec;
ghost use Rattle.run_bill.specs.Licences.{and_term, concluded_of, declared_of};

use check_core::CrateReport;
use check_core::evaluate::Verdict;
use deny_text::Text;
use spdx_core::{Expression, ExpressionReq};
use spdx_printed::{printed, push_term};
use spdx_terms::LicenseItem;
use std::alloc::{AllocError, Global};

/// What is said where nothing is asserted.
fn no_assertion(alloc: Global) -> Result<Text, AllocError>
    ensures { IfOk result (λ text. text ≡ spec.no_assertion) }
{
    Text::copy(alloc, "NOASSERTION")
}

fn is_reference(term: &ExpressionReq) -> bool
    ensures { result ≡ spec.is_reference term.now.req.item }
{
    match &term.req.item {
        LicenseItem::Reference { .. } => true,
        LicenseItem::Spdx { .. } => false,
    }
}

/// Whether a term of an expression is a reference, which has a meaning in its crate alone.
fn has_reference(expression: &Expression) -> bool
    ensures { result ≡ spec.has_reference expression.now }
{
    expression
        .requirements()
        .iter()
        .any(|term| is_reference(term))
}

fn is_skipped(verdict: &Verdict) -> bool
    ensures { result ≡ spec.is_skipped verdict.now }
{
    match verdict {
        Verdict::Skipped => true,
        Verdict::Unlicensed | Verdict::Accepted { .. } | Verdict::Rejected { .. } => false,
    }
}

fn without_reference(expression: &Expression) -> Option<&Expression>
    ensures { option_map (λ own. own.now) result ≡ spec.without_reference expression.now }
{
    if has_reference(expression) {
        None
    } else {
        Some(expression)
    }
}

/// The expression of a crate of which something is asserted: it has no reference, and the crate is not skipped.
fn asserted(report: &CrateReport) -> Option<&Expression>
    ensures { option_map (λ expression. expression.now) result ≡ spec.asserted report.now }
{
    if is_skipped(&report.verdict) {
        return None;
    }
    match &report.expression {
        Some(expression) => without_reference(expression),
        None => None,
    }
}

/// The licence that is declared for a crate.
pub(crate) fn declared(alloc: Global, report: &CrateReport) -> Result<Text, AllocError>
    ensures { IfOk result (λ text. text ≡ declared_of report.now) }
{
    match asserted(report) {
        Some(expression) => printed(alloc, expression),
        None => no_assertion(alloc),
    }
}

/// Appends the terms at some places, each behind an ` AND `.
fn push_more(text: &mut String, terms: &[ExpressionReq], places: &[usize]) -> Result<(), AllocError>
    ensures { OnOk result (string_bytes text.new
        ≡ string_bytes text.old ++ flat_map (and_term terms.now) places.now) }
{
    'places: for place in places {
        text.push_str(" AND ")?;
        push_term(text, terms, *place)?;
    }
    Ok(())
}

/// The terms at some places, with ` AND ` between.
fn joined(alloc: Global, terms: &[ExpressionReq], places: &[usize]) -> Result<Text, AllocError>
    ensures { IfOk result (λ text. text ≡ spec.joined terms.now places.now) }
{
    let mut text = String::new(alloc);
    if let Some((first, more)) = places.split_first() {
        push_term(&mut text, terms, *first)?;
        push_more(&mut text, terms, more)?;
    }
    Ok(Text::from(text))
}

/// The terms of a verdict's choice; nothing is asserted where it has none.
fn chosen(alloc: Global, expression: &Expression, verdict: &Verdict) -> Result<Text, AllocError>
    ensures { IfOk result (λ text. text ≡ spec.chosen expression.now verdict.now) }
{
    match verdict {
        Verdict::Accepted { choice, .. } => {
            joined(alloc, expression.requirements(), choice.items())
        }
        Verdict::Skipped | Verdict::Unlicensed | Verdict::Rejected { .. } => no_assertion(alloc),
    }
}

/// The licence that the policy's choice concludes for a crate.
pub(crate) fn concluded(alloc: Global, report: &CrateReport) -> Result<Text, AllocError>
    ensures { IfOk result (λ text. text ≡ concluded_of report.now) }
{
    match asserted(report) {
        Some(expression) => chosen(alloc, expression, &report.verdict),
        None => no_assertion(alloc),
    }
}
