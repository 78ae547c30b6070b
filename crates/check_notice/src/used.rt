//! The terms that a crate is used under.
ghost use Rattle.std.specs.Prelude.{◌≡◌, ◌++◌, [], IfOk, OnOk, map};
ghost use Rattle.std.specs.Option.{option_to_list};
ghost use Rattle.check_notice.specs.Notice as spec;
ghost use Rattle.check_notice.specs.Notice.{term_at, terms_at};
ghost use Rattle.check_notice.specs.Steps.{lent_term};

use check_core::CrateReport;
use check_core::evaluate::Verdict;
use deny_text::ListOf;
use spdx_core::{ExpressionReq, LicenseReq};
use std::alloc::{AllocError, Global};

/// Terms in order.
pub(crate) type TermRefs<'t> = ListOf<&'t LicenseReq>;

/// Appends the term at a place.
fn push_term<'t>(
    used: &mut TermRefs<'t>,
    terms: &'t [ExpressionReq],
    place: usize,
) -> Result<(), AllocError>
    ensures { OnOk result (map lent_term used.new
        ≡ map lent_term used.old ++ option_to_list (term_at terms.now place)) }
{
    match terms.get(place) {
        Some(term) => used.push(&term.req),
        None => Ok(()),
    }
}

/// The terms at places, in the order of these.
#[tactic(auto, using(crate::proofs::TermLemmas::one_more_term))]
fn terms_at<'t>(
    alloc: Global,
    terms: &'t [ExpressionReq],
    places: &[usize],
) -> Result<TermRefs<'t>, AllocError>
    ensures { IfOk result (λ used. map lent_term used ≡ terms_at terms.now places.now) }
{
    let mut used = TermRefs::new(alloc);
    'places: for place in places {
        push_term(&mut used, terms, *place)?;
    }
    Ok(used)
}

/// The terms of an accepted crate that it is used under, in the order of its choice; none of any other crate.
pub(crate) fn used_terms(alloc: Global, report: &CrateReport) -> Result<TermRefs<'_>, AllocError>
    ensures { IfOk result (λ used.
        map lent_term used ≡ spec.used_by report.now.expression report.now.verdict) }
{
    match (&report.expression, &report.verdict) {
        (Some(expression), Verdict::Accepted { choice, .. }) => {
            terms_at(alloc, expression.requirements(), choice.items())
        }
        _ => Ok(TermRefs::new(alloc)),
    }
}
