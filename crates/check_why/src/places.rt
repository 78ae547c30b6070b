//! Places in files, and where a policy allows a term.
ghost use Rattle.std.specs.Prelude.{◌≡◌, ◌++◌, IfOk, OnOk, map, option_copied};
ghost use Rattle.diag_core.specs.declared.label.LabelStyle.TheVariants.{Primary};
ghost use Rattle.diag_core.specs.Label.{label_at};
ghost use Rattle.diag_print.specs.Places.{LabelIsInside};
ghost use Rattle.policy_core.specs.Places.{PolicyStands};
ghost use Rattle.policy_core.specs.valid.View.{policy_of};
ghost use Rattle.check_core.specs.evaluate.Entries.{entry_families};
ghost use Rattle.check_core.specs.evaluate.Evaluation.{term_hits};
ghost use Rattle.check_why.specs.Place as spec;
ghost use Rattle.check_why.specs.Place.{PlaceIsInside};

use crate::answer::{TermAnswer, TermAnswers, TermHit};
use check_core::ExpressionPlace;
use check_core::evaluate::{EntryIndex, hit_by};
use deny_text::{Span, Steps, Text};
use diag_core::{FileId, Files, Label};
use diag_print::place_of;
use policy_core::valid::{CountedPolicy, ValidConfig};
use policy_parts::entries::Licensee;
use policy_parts::spec::Places;
use spdx_core::ExpressionReq;
use spdx_core::certificates::Hit;
use std::alloc::{AllocError, Global};
use std::sync::ledger::Ledger;

/// Where a place of a file begins: the file, the line and the column.
pub(crate) fn place_at(
    alloc: Global,
    files: &Files,
    file: FileId,
    span: Span,
) -> Result<Text, AllocError>
    requires { PlaceIsInside files.now file span }
    ensures { IfOk result (λ text. text ≡ spec.place_at files.now file span) }
{
    let label = Label::primary(alloc, file, span);
    place_of(alloc, files, &label)
}

/// The first byte of an expression, or the string that it was written as, where that has escapes.
pub(crate) fn begin_of(place: &ExpressionPlace) -> Span
    ensures { result ≡ spec.begin_of place.now }
{
    match place.whole {
        Some(whole) => whole,
        None => Span {
            start: place.offset,
            end: place.offset,
        },
    }
}

/// Where a licensee of a list is; an empty text behind the end.
fn licensee_place(
    alloc: Global,
    files: &Files,
    file: FileId,
    licensees: &[Licensee],
    entry: usize,
) -> Result<Text, AllocError>
    requires { spec.LicenseesAreInside files.now file licensees.now }
    ensures { IfOk result (λ text. text ≡ spec.licensee_place files.now file licensees.now entry) }
{
    match licensees.get(entry) {
        Some(licensee) => place_at(alloc, files, file, licensee.0.span),
        None => Text::copy(alloc, ""),
    }
}

/// Where an entry of an exception is, in the exception's own file.
fn excepted_place(
    alloc: Global,
    files: &Files,
    policy: &ValidConfig,
    exception: usize,
    entry: usize,
) -> Result<Text, AllocError>
    requires { PolicyStands files.now policy.now }
    ensures { IfOk result (λ text.
        text ≡ spec.excepted_place files.now policy.now.exceptions exception entry) }
{
    match policy.exceptions.items().get(exception) {
        Some(one) => licensee_place(alloc, files, one.file_id, one.allowed.items(), entry),
        None => Text::copy(alloc, ""),
    }
}

/// Where the entry is that allows a term.
fn term_hit(
    alloc: Global,
    files: &Files,
    policy: &ValidConfig,
    hit: Option<Hit>,
) -> Result<TermHit, AllocError>
    requires { PolicyStands files.now policy.now }
    ensures { IfOk result (λ told. told ≡ spec.term_hit files.now policy.now hit) }
{
    match hit {
        None => Ok(TermHit::NotAllowed),
        Some(Hit::Allowed(entry)) => {
            let allowed = policy.allowed.items();
            let place = licensee_place(alloc, files, policy.file_id, allowed, entry)?;
            Ok(TermHit::Allowed(place))
        }
        Some(Hit::Exception { exception, entry }) => {
            let place = excepted_place(alloc, files, policy, exception, entry)?;
            Ok(TermHit::Excepted(place))
        }
    }
}

/// What allows each of some terms, where the exceptions at some places count for the crate.
pub(crate) fn hits_of<L: Ledger>(
    alloc: Global,
    policy: &CountedPolicy<'_, L>,
    index: &EntryIndex,
    exceptions: &Places,
    terms: &[ExpressionReq],
    steps: &mut Steps<L>,
) -> Result<Vec<Option<Hit>>, AllocError>
    requires { entry_families (policy_of policy.now) ≡ index.now }
    ensures { IfOk result (λ hits. hits.items ≡ term_hits (policy_of policy.now) exceptions.now terms.now) }
{
    let mut hits = Vec::with_capacity(alloc, terms.len())?;
    'terms: for term in terms {
        let hit = hit_by(policy, index, exceptions, &term.req, steps);
        hits.push(hit)?;
    }
    Ok(hits)
}

fn term_answer(
    alloc: Global,
    files: &Files,
    policy: &ValidConfig,
    term: &ExpressionReq,
    hit: Option<Hit>,
) -> Result<TermAnswer, AllocError>
    requires { PolicyStands files.now policy.now }
    ensures { IfOk result (λ answer. answer ≡ spec.term_answer files.now policy.now term.now hit) }
{
    let text = format!(in alloc; "{}", term.req)?;
    let hit = term_hit(alloc, files, policy, hit)?;
    Ok(TermAnswer {
        text: Text::from(text),
        hit,
    })
}

/// The terms in order, each by its own hit.
pub(crate) fn term_answers(
    alloc: Global,
    files: &Files,
    policy: &ValidConfig,
    terms: &[ExpressionReq],
    hits: &[Option<Hit>],
) -> Result<TermAnswers, AllocError>
    requires { PolicyStands files.now policy.now }
    ensures { IfOk result (λ answers. answers ≡ spec.term_answers files.now policy.now terms.now hits.now) }
{
    let mut answers = TermAnswers::new(alloc);
    'terms: for (term, hit) in terms.iter().zip(hits.iter()) {
        let answer = term_answer(alloc, files, policy, term, *hit)?;
        answers.push(answer)?;
    }
    Ok(answers)
}
