//! What is said of a crate, by the report of the check on it.
ghost use Rattle.std.specs.Prelude.{◌≡◌, ◌<◌, ◌++◌, ◌∷◌, [], IfOk, OnOk, if◌then◌else◌};
ghost use Rattle.graph_core.specs.Krate.{record_of};
ghost use Rattle.policy_core.specs.Places.{PolicyStands};
ghost use Rattle.check_why.specs.Answer.{failing, title_of};
ghost use Rattle.check_why.specs.Indexes.{IndexesPolicy};
ghost use Rattle.check_why.specs.Made as spec;
ghost use Rattle.check_why.specs.Made.{IsReportInside};
ghost use Rattle.policy_core.specs.valid.View.{policy_of};
ghost use Rattle.check_core.specs.evaluate.Entries.{entry_families};

use crate::answer::{
    CrateAnswer, CrateTitle, CrateTitles, LicenseAnswer, TermAnswers, VerdictAnswer,
};
use crate::places::{begin_of, hits_of, place_at, term_answers};
use crate::policy_index::PolicyIndex;
use crate::reads::read_answers;
use crate::unmet::unmet_answers;
use check_core::evaluate::{EntryIndex, Verdict};
use check_core::findings::source_text;
use check_core::{CrateReport, ExpressionPlace};
use deny_text::{Steps, Text, Texts};
use diag_core::Files;
use gather_core::LicenseExprSource;
use graph_core::Krate;
use policy_core::valid::{CountedPolicy, ValidConfig};
use spdx_core::Expression;
use spdx_core::certificates::{Hit, TermPlaces};
use std::alloc::{AllocError, Global};
use std::marker::Brand;
use std::sync::ledger::{Blank, Ledger};

/// A crate by its id, its name and its version.
pub fn title_of(alloc: Global, krate: &Krate) -> Result<CrateTitle, AllocError>
    ensures { IfOk result (λ title. title ≡ title_of (record_of krate.now)) }
{
    let version = format!(in alloc; "{}", krate.version)?;
    Ok(CrateTitle {
        id: Text::copy(alloc, krate.id.as_str())?,
        name: Text::copy(alloc, krate.name.as_str())?,
        version: Text::from(version),
    })
}

fn copies(alloc: Global, texts: &[Text]) -> Result<Texts, AllocError>
    ensures { IfOk result (λ copies. copies ≡ texts.now) }
{
    let mut copies = Texts::new(alloc);
    'texts: for text in texts {
        let copy = Text::copy(alloc, text.as_str())?;
        copies.push(copy)?;
    }
    Ok(copies)
}

fn places_copy(alloc: Global, places: &[usize]) -> Result<TermPlaces, AllocError>
    ensures { IfOk result (λ copies. copies ≡ places.now) }
{
    let mut copies = TermPlaces::new(alloc);
    'places: for place in places {
        copies.push(*place)?;
    }
    Ok(copies)
}

/// The expression of a crate, where it has one.
fn license_at(
    alloc: Global,
    files: &Files,
    expression: &Expression,
    source: &LicenseExprSource,
    place: &ExpressionPlace,
) -> Result<LicenseAnswer, AllocError>
    requires { spec.IsPlaceInside files.now place.now }
    ensures { IfOk result (λ license.
        license ≡ spec.license_at files.now expression.now source.now place.now) }
{
    Ok(LicenseAnswer {
        text: Text::copy(alloc, expression.as_ref())?,
        source: source_text(alloc, source)?,
        place: place_at(alloc, files, place.file, begin_of(place))?,
    })
}

fn license_answer(
    alloc: Global,
    files: &Files,
    report: &CrateReport,
) -> Result<Option<LicenseAnswer>, AllocError>
    requires { IsReportInside files.now report.now }
    ensures { IfOk result (λ license. license ≡ spec.license_answer files.now report.now) }
{
    match (&report.expression, &report.source, &report.place) {
        (Some(expression), Some(source), Some(place)) => {
            let license = license_at(alloc, files, expression, source, place)?;
            Ok(Some(license))
        }
        _ => Ok(None),
    }
}

/// Whether the term at a place has no hit.
fn fails(hits: &[Option<Hit>], place: usize) -> bool
    ensures { result ≡ spec.fails hits.now place }
{
    match hits.get(place) {
        Some(hit) => hit.is_none(),
        None => true,
    }
}

/// Appends a place, where it is wanted.
fn put_where(places: &mut TermPlaces, place: usize, wanted: bool) -> Result<(), AllocError>
    ensures { OnOk result (places.new ≡ places.old ++ (if wanted then place ∷ [] else [])) }
{
    if wanted { places.push(place) } else { Ok(()) }
}

/// Of a choice the places of the terms that have no hit.
fn failing(alloc: Global, hits: &[Option<Hit>], choice: &[usize]) -> Result<TermPlaces, AllocError>
    ensures { IfOk result (λ places. places ≡ failing hits.now choice.now) }
{
    let mut places = TermPlaces::new(alloc);
    'choice: for place in choice {
        put_where(&mut places, *place, fails(hits, *place))?;
    }
    Ok(places)
}

fn verdict_answer(
    alloc: Global,
    hits: &[Option<Hit>],
    verdict: &Verdict,
) -> Result<VerdictAnswer, AllocError>
    ensures { IfOk result (λ answer. answer ≡ spec.verdict_answer hits.now verdict.now) }
{
    match verdict {
        Verdict::Skipped => Ok(VerdictAnswer::PassedOver),
        Verdict::Unlicensed => Ok(VerdictAnswer::Unlicensed),
        Verdict::Accepted { choice, .. } => Ok(VerdictAnswer::Accepted {
            choice: places_copy(alloc, choice.items())?,
        }),
        Verdict::Rejected { least, blocks } => Ok(VerdictAnswer::Rejected {
            allow: failing(alloc, hits, least.items())?,
            blocks: places_copy(alloc, blocks.items())?,
        }),
    }
}

fn is_skipped(verdict: &Verdict) -> bool
    ensures { result ≡ spec.is_skipped verdict.now }
{
    matches!(verdict, Verdict::Skipped)
}

/// The terms of a crate that is not passed over.
fn terms_for(
    alloc: Global,
    files: &Files,
    policy: &ValidConfig,
    report: &CrateReport,
    hits: &[Option<Hit>],
) -> Result<TermAnswers, AllocError>
    requires { PolicyStands files.now policy.now }
    ensures { IfOk result (λ terms. terms ≡ spec.terms_for files.now policy.now report.now hits.now) }
{
    match &report.expression {
        Some(expression) if !is_skipped(&report.verdict) => {
            term_answers(alloc, files, policy, expression.requirements(), hits)
        }
        _ => Ok(TermAnswers::new(alloc)),
    }
}

fn hits_by_ledger<L: Ledger>(
    ledger: Blank,
    alloc: Global,
    policy: &ValidConfig,
    index: &EntryIndex,
    report: &CrateReport,
) -> Result<Vec<Option<Hit>>, AllocError>
    requires name { ledger.name ≡ L.name }
    requires parts { ledger.parts ≡ L.parts }
    requires some { 0 < ledger.parts }
    requires index { entry_families (policy_of policy.now) ≡ index.now }
    ensures { IfOk result (λ hits. hits.items ≡ spec.hits_for policy.now report.now) }
{
    let mut steps = Steps::<L>::new(ledger);
    let counted = CountedPolicy::<L>::of(policy);
    match &report.expression {
        Some(expression) => hits_of(
            alloc,
            &counted,
            index,
            &report.exceptions,
            expression.requirements(),
            &mut steps,
        ),
        None => Ok(Vec::new(alloc)),
    }
}

/// What allows each term of a crate's expression.
fn hits_for(
    alloc: Global,
    policy: &ValidConfig,
    index: &PolicyIndex,
    report: &CrateReport,
) -> Result<Vec<Option<Hit>>, AllocError>
    requires { IndexesPolicy policy.now index.now }
    ensures { IfOk result (λ hits. hits.items ≡ spec.hits_for policy.now report.now) }
{
    hits_by_ledger::<Brand>(Blank::new(1), alloc, policy, &index.entries, report)
}

/// What is said of a crate that is checked: by the policy and the report of the check, with the table of files that the
/// check has left. The crates of the shortest walk to it are handed in, without itself.
pub fn answer_of(
    alloc: Global,
    files: &Files,
    policy: &ValidConfig,
    index: &PolicyIndex,
    krate: &Krate,
    report: &CrateReport,
    needed_by: CrateTitles,
) -> Result<CrateAnswer, AllocError>
    requires index { IndexesPolicy policy.now index.now }
    requires policy { PolicyStands files.now policy.now }
    requires report { IsReportInside files.now report.now }
    ensures { IfOk result (λ answer.
        answer ≡ spec.answer_by files.now policy.now (record_of krate.now) report.now needed_by) }
{
    let hits = hits_for(alloc, policy, index, report)?;
    let kept = report.kept.items();
    Ok(CrateAnswer {
        title: title_of(alloc, krate)?,
        verdict: verdict_answer(alloc, &hits, &report.verdict)?,
        license: license_answer(alloc, files, report)?,
        terms: terms_for(alloc, files, policy, report, &hits)?,
        needed_by,
        reads: read_answers(alloc, report.reads.items(), kept)?,
        unmet: unmet_answers(alloc, files, policy, index, krate, kept)?,
        notes: copies(alloc, report.notes.items())?,
    })
}
