//! The notice of the crates that were judged.
//! Called by `found_notice` of noticing; the reads may be listed in any order, no clause has it.
ghost use Rattle.std.specs.Prelude.{◌≡◌, ◌++◌, IfOk, None, OnErr, OnOk, map};
ghost use Rattle.std.specs.Option.{option_copied};
ghost use Rattle.graph_core.specs.Krate.{record_of};
ghost use Rattle.graph_core.specs.selection.Listed.{record_behind};
ghost use Rattle.check_notice.specs.Notice.{AnswersNotice, first_unaccepted, noticed_of};
ghost use Rattle.run_check.specs.Judged.{crates_judged};
ghost use Rattle.run_found.specs.Hearing.{seen_between};
ghost use Rattle.run_found.specs.own_names.Given.{texts_given};
ghost use Rattle.run_notice.specs.Noticed.{sources_by, unaccepted_id};
ghost use Rattle.run_notice.specs.Steps.{IsMade, LacksOwn, MakesNotice, MakesOwn, RefusesUnaccepted, noticed_by, source_at};

use crate::noticed::NoticedCrates;
use crate::own::{CrateTexts, own_of_crates, reads_of_own};
use check_core::CrateReport;
use check_notice::{Notice, NoticeError, NoticeSource, TextFinder, first_unaccepted, notice_of};
use deny_text::{ListOf, Text};
use gather_core::cut_threshold;
use graph_core::Krate;
use run_check::JudgedCrates;
use run_found::{CrateReads, Error};
use spdx_core::{Identifier, TextLookup};
use std::alloc::{AllocError, Global};
use tree_core::Tree;

/// Crates as a notice looks at them, in order.
type NoticeSources<'s> = ListOf<NoticeSource<'s>>;

/// Appends a crate, where there is a report on it, with the texts that it comes with.
fn push_source<'s>(
    sources: &mut NoticeSources<'s>,
    krate: &'s Krate,
    report: Option<&'s CrateReport>,
    own: Option<&'s CrateTexts>,
) -> Result<(), AllocError>
    ensures { OnOk result (map noticed_of sources.new ≡ map noticed_of sources.old
        ++ source_at (record_of krate.now) (option_copied report.entry) (option_copied own.entry)) }
{
    match (report, own) {
        (Some(report), Some(texts)) => {
            let own = &texts.own;
            sources.push(NoticeSource { krate, report, own })
        }
        _ => Ok(()),
    }
}

/// Crates, each with the report on it and the texts that it comes with.
fn sources<'s>(
    alloc: Global,
    krates: &[&'s Krate],
    reports: &'s [CrateReport],
    own: &'s [CrateTexts],
) -> Result<NoticeSources<'s>, AllocError>
    ensures { IfOk result (λ sources. map noticed_of sources
        ≡ noticed_by (map record_behind krates.now) reports.now own.now) }
{
    let mut sources = NoticeSources::new(alloc);
    'crates: for (place, krate) in krates.iter().enumerate() {
        push_source(&mut sources, krate, reports.get(place), own.get(place))?;
    }
    Ok(sources)
}

/// The notice of crates, each with the report on it and the texts that it comes with.
fn notice_by<I: Identifier + TextLookup>(
    alloc: Global,
    krates: &[&Krate],
    reports: &[CrateReport],
    own: &[CrateTexts],
    identifier: &I,
    threshold: i64,
) -> Result<Notice, NoticeError>
    requires { first_unaccepted (noticed_by (map record_behind krates.now) reports.now own.now) ≡ None }
    ensures { AnswersNotice
        (sources_by (texts_given (I.match_of identifier.now) (I.text_of identifier.now)) threshold)
        (noticed_by (map record_behind krates.now) reports.now own.now) result }
{
    let sources = sources(alloc, krates, reports, own)?;
    let finder = TextFinder {
        identifier,
        threshold: cut_threshold(threshold),
    };
    notice_of(alloc, sources.items(), &finder)
}

/// The refusal of a crate that is rejected, or has no licence.
fn not_accepted(alloc: Global, id: Text, judged: JudgedCrates) -> Error
    ensures { RefusesUnaccepted id judged result }
{
    match judged.into_reads(alloc) {
        Ok(reads) => Error::NotAccepted { id, reads },
        Err(_) => Error::Memory,
    }
}

/// The id of the first crate that is rejected, or has no licence.
fn unaccepted_id(alloc: Global, reports: &[CrateReport]) -> Result<Option<Text>, AllocError>
    ensures { IfOk result (λ id. id ≡ unaccepted_id reports.now) }
{
    match first_unaccepted(reports) {
        Some(report) => {
            let id = Text::copy(alloc, report.id.as_str())?;
            Ok(Some(id))
        }
        None => Ok(None),
    }
}

/// The notice of crates, or why there is none, and the reads for the texts that they come with.
#[derive(Drop)]
pub(crate) struct MadeNotice {
    pub(crate) made: Result<Notice, NoticeError>,
    pub(crate) own: CrateReads,
}

/// The notice of the crates that were judged, or why there is none: the texts that they come with are read, crate after
/// crate.
fn made_of<T: Tree, I: Identifier + TextLookup>(
    alloc: Global,
    judged: &JudgedCrates,
    identifier: &I,
    tree: &mut T,
) -> Result<MadeNotice, AllocError>
    requires { unaccepted_id judged.now.report.crates ≡ None }
    ensures made { IfOk result (λ made. MakesOwn judged.now
        (seen_between T.content T.fault_count T.trace tree.old tree.new)
        (IsMade (texts_given (I.match_of identifier.now) (I.text_of identifier.now)) judged.now made)) }
    ensures cut { OnErr result (LacksOwn judged.now
        (seen_between T.content T.fault_count T.trace tree.old tree.new)) }
{
    let krates = judged.checked(alloc)?;
    let listed = krates.items();
    let own = own_of_crates(alloc, listed, tree)?;
    let reports = judged.report.crates.items();
    let threshold = judged.report.policy.confidence_threshold;
    let made = notice_by(alloc, listed, reports, own.items(), identifier, threshold);
    let reads = reads_of_own(alloc, own)?;
    Ok(MadeNotice { made, own: reads })
}

/// The notice of the crates that were judged, none of which is rejected or without a licence.
fn notice_of_accepted<T: Tree, I: Identifier + TextLookup>(
    alloc: Global,
    judged: JudgedCrates,
    identifier: &I,
    tree: &mut T,
) -> Result<NoticedCrates, Error>
    requires { unaccepted_id judged.report.crates ≡ None }
    ensures { MakesNotice (texts_given (I.match_of identifier.now) (I.text_of identifier.now)) judged
        (seen_between T.content T.fault_count T.trace tree.old tree.new) result }
{
    let MadeNotice { made, own } = made_of(alloc, &judged, identifier, tree)?;
    let reads = judged.into_reads(alloc)?;
    match made {
        Ok(notice) => Ok(NoticedCrates { notice, reads, own }),
        Err(NoticeError::NoText { id, key }) => Err(Error::NoText {
            id,
            key,
            reads,
            own,
        }),
        Err(NoticeError::Memory) => Err(Error::Memory),
    }
}

/// The notice of the crates that were judged. Where one is rejected or has no licence, that is the refusal, and no own
/// text is read.
pub(crate) fn notice_of_judged<T: Tree, I: Identifier + TextLookup>(
    alloc: Global,
    judged: JudgedCrates,
    identifier: &I,
    tree: &mut T,
) -> Result<NoticedCrates, Error>
    ensures { MakesNotice (texts_given (I.match_of identifier.now) (I.text_of identifier.now)) judged
        (seen_between T.content T.fault_count T.trace tree.old tree.new) result }
{
    match unaccepted_id(alloc, judged.report.crates.items())? {
        Some(id) => Err(not_accepted(alloc, id, judged)),
        None => notice_of_accepted(alloc, judged, identifier, tree),
    }
}
