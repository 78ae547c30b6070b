//! The clarifications and exceptions that are for a crate and do not hold.
ghost use Rattle.std.specs.Prelude.{◌≡◌, ◌++◌, IfOk, OnOk, map, option_copied, option_map};
ghost use Rattle.std.specs.List.{cons_option};
ghost use Rattle.graph_core.specs.Krate.{record_of};
ghost use Rattle.policy_parts.specs.spec.Index.{spec_numbers};
ghost use Rattle.policy_core.specs.Places.{PolicyStands};
ghost use Rattle.check_why.specs.Indexes.{IndexesPolicy, exception_specs};
ghost use Rattle.check_why.specs.Kept as spec;
ghost use Rattle.check_why.specs.Kept.{said_at, until_holds};
ghost use Rattle.check_why.specs.Place.{PlaceIsInside};
ghost use Rattle.check_why.specs.Unmet.{asking_files};

use crate::answer::{Asking, Unmatched, UnmetAnswer, UnmetAnswers};
use crate::places::place_at;
use crate::policy_index::PolicyIndex;
use deny_text::{PathBuf, Span};
use diag_core::{FileId, Files};
use gather_license::{KeptFile, TextKept};
use graph_core::Krate;
use policy_core::valid::{ValidConfig, is_version_3};
use policy_parts::FileSource;
use policy_parts::spec::{Places, SpecIndex};
use std::alloc::{AllocError, Global};
use tree_core::file_reads::BadRead;

/// Why a file does not match, which is to have a hash; none where it does.
fn text_unmatched(wanted: u32, kept: &TextKept) -> Option<Unmatched>
    ensures { result ≡ spec.text_unmatched wanted kept.now }
{
    match kept {
        Ok(text) if text.hash == wanted => None,
        Ok(text) => Some(Unmatched::Hash {
            found: text.hash,
            wanted,
        }),
        Err(BadRead::Absent) => Some(Unmatched::NotThere),
        Err(BadRead::WrongKind) | Err(BadRead::NotUtf8) => Some(Unmatched::NoText),
        Err(BadRead::Failed { .. }) => Some(Unmatched::Failed),
    }
}

/// What is kept of the file at a path.
fn kept_at<'k>(kept: &'k [KeptFile], path: &PathBuf) -> Option<&'k TextKept>
    ensures { option_copied result ≡ spec.kept_at kept.entry.now path.now }
{
    let file = kept.iter().find(|file| *path == file.path)?;
    Some(&file.kept)
}

/// The same of a file that a policy names; one of which nothing is kept is not there.
fn file_unmatched(kept: &[KeptFile], named: &FileSource) -> Option<Unmatched>
    ensures { result ≡ spec.file_unmatched kept.now named.now }
{
    match kept_at(kept, &named.path.value) {
        Some(text) => text_unmatched(named.hash, text),
        None => Some(Unmatched::NotThere),
    }
}

/// The first of some files that does not match, and why.
#[derive(Drop)]
struct UnmatchedFile<'p> {
    named: &'p FileSource,
    by: Unmatched,
}

fn first_unmatched<'p>(kept: &[KeptFile], files: &'p [FileSource]) -> Option<UnmatchedFile<'p>>
    ensures { option_map (λ found. (found.named.now, found.by)) result
        ≡ spec.first_unmatched kept.now files.entry.now }
{
    'files: for named in files {
        if let Some(by) = file_unmatched(kept, named) {
            return Some(UnmatchedFile { named, by });
        }
    }
    None
}

/// What is said of a clarification or an exception that does not hold, which names its crate at a place; none where it
/// holds.
fn unmet_of(
    alloc: Global,
    files: &Files,
    asking: Asking,
    file: FileId,
    span: Span,
    sources: &[FileSource],
    kept: &[KeptFile],
) -> Result<Option<UnmetAnswer>, AllocError>
    requires { PlaceIsInside files.now file span }
    ensures { IfOk result (λ unmet.
        unmet ≡ spec.unmet_by kept.now (asking_files files.now asking file span sources.now) sources.now) }
{
    match first_unmatched(kept, sources) {
        Some(found) => {
            let place = place_at(alloc, files, file, span)?;
            let path = PathBuf::copy(alloc, found.named.path.value.as_path())?;
            Ok(Some(UnmetAnswer {
                asking,
                place,
                path,
                by: found.by,
            }))
        }
        None => Ok(None),
    }
}

/// What is said of the clarification at a place; none where it holds.
fn clarification_unmet(
    alloc: Global,
    files: &Files,
    policy: &ValidConfig,
    place: usize,
    kept: &[KeptFile],
) -> Result<Option<UnmetAnswer>, AllocError>
    requires { PolicyStands files.now policy.now }
    ensures { IfOk result (λ unmet.
        unmet ≡ spec.clarification_unmet files.now policy.now kept.now place) }
{
    match policy.clarifications.items().get(place) {
        Some(one) => {
            let span = one.spec.name.span;
            let sources = one.license_files.items();
            let asking = Asking::Clarification;
            unmet_of(alloc, files, asking, one.file_id, span, sources, kept)
        }
        None => Ok(None),
    }
}

/// Of the clarifications at some places those before the first that holds.
fn push_clarifications(
    alloc: Global,
    unmet: &mut UnmetAnswers,
    files: &Files,
    policy: &ValidConfig,
    places: &[usize],
    kept: &[KeptFile],
) -> Result<(), AllocError>
    requires { PolicyStands files.now policy.now }
    ensures { OnOk result (unmet.new ≡ unmet.old
        ++ said_at until_holds (spec.clarification_unmet files.now policy.now kept.now) places.now) }
{
    'places: for place in places {
        match clarification_unmet(alloc, files, policy, *place, kept)? {
            Some(told) => unmet.push(told)?,
            None => return Ok(()),
        }
    }
    Ok(())
}

/// What is said of the exception at a place; none where its files are as they have to be.
fn exception_unmet(
    alloc: Global,
    files: &Files,
    policy: &ValidConfig,
    place: usize,
    kept: &[KeptFile],
) -> Result<Option<UnmetAnswer>, AllocError>
    requires { PolicyStands files.now policy.now }
    ensures { IfOk result (λ unmet.
        unmet ≡ spec.exception_unmet files.now policy.now kept.now place) }
{
    match policy.exceptions.items().get(place) {
        Some(one) => {
            let span = one.spec.name.span;
            let sources = one.license_files.items();
            let asking = Asking::Exception;
            unmet_of(alloc, files, asking, one.file_id, span, sources, kept)
        }
        None => Ok(None),
    }
}

fn push_exceptions(
    alloc: Global,
    unmet: &mut UnmetAnswers,
    files: &Files,
    policy: &ValidConfig,
    places: &[usize],
    kept: &[KeptFile],
) -> Result<(), AllocError>
    requires { PolicyStands files.now policy.now }
    ensures { OnOk result (unmet.new ≡ unmet.old
        ++ said_at cons_option (spec.exception_unmet files.now policy.now kept.now) places.now) }
{
    'places: for place in places {
        if let Some(told) = exception_unmet(alloc, files, policy, *place, kept)? {
            unmet.push(told)?;
        }
    }
    Ok(())
}

/// The places of the exceptions that are for a crate, where their files are looked at.
fn exceptions_for(
    alloc: Global,
    policy: &ValidConfig,
    index: &SpecIndex,
    krate: &Krate,
) -> Result<Places, AllocError>
    requires { spec_numbers (exception_specs policy.now.exceptions) ≡ index.now }
    ensures { IfOk result (λ places. places ≡ spec.exceptions_for policy.now (record_of krate.now)) }
{
    if is_version_3(policy.version) {
        index.matches(alloc, policy.exceptions.items(), krate)
    } else {
        Ok(Places::new(alloc))
    }
}

/// What is for a crate and does not hold, by what is kept of its licence files: of clarifications those before the first
/// that holds, and with version 3 the exceptions.
pub(crate) fn unmet_answers(
    alloc: Global,
    files: &Files,
    policy: &ValidConfig,
    index: &PolicyIndex,
    krate: &Krate,
    kept: &[KeptFile],
) -> Result<UnmetAnswers, AllocError>
    requires index { IndexesPolicy policy.now index.now }
    requires policy { PolicyStands files.now policy.now }
    ensures { IfOk result (λ unmet.
        unmet ≡ spec.unmet_answers files.now policy.now (record_of krate.now) kept.now) }
{
    let mut unmet = UnmetAnswers::new(alloc);
    let clarifications = policy.clarifications.items();
    let clarified = index.clarifications.matches(alloc, clarifications, krate)?;
    push_clarifications(alloc, &mut unmet, files, policy, clarified.items(), kept)?;
    let excepted = exceptions_for(alloc, policy, &index.exceptions, krate)?;
    push_exceptions(alloc, &mut unmet, files, policy, excepted.items(), kept)?;
    Ok(unmet)
}
