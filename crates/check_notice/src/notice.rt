//! The notice of crates.
ghost use Rattle.std.specs.Prelude.{◌≡◌, ◌++◌, IfOk, None, map};
ghost use Rattle.graph_core.specs.Krate.{record_of};
ghost use Rattle.check_notice.specs.Notice as spec;
ghost use Rattle.check_notice.specs.Notice.{AnswersNotice, first_unaccepted, in_line, noticed_of};
ghost use Rattle.check_notice.specs.Sources.{finder_sources};
ghost use Rattle.check_notice.specs.Steps.{AnswersProgress, all_told_by, nothing_told, told_by, told_with};

use crate::cites::{CiteError, Cited, cites};
use crate::named::names_of;
use crate::numbers::TextNumbers;
use crate::sources::{NoticeSource, TextFinder};
use crate::used::used_terms;
use check_core::evaluate::Verdict;
use deny_text::{Bytes, ListOf, Text, Texts};
use graph_core::Krate;
use spdx_terms::catalog::{Identifier, TextLookup};
use std::alloc::{AllocError, Global};

/// A term as it is called, and the number of its text, from 1.
#[derive(Drop)]
pub struct KeyNumber {
    pub key: Text,
    pub number: usize,
}

/// The terms that a crate is used under, in the order of its choice.
pub type KeyNumbers = ListOf<KeyNumber>;

/// A crate that is accepted, and the licences that it is used under.
#[derive(Drop)]
pub struct NoticeCrate {
    /// The package id, as cargo writes it.
    pub id: Text,
    /// `{name}@{version}`, with a blank in the place of each LF.
    pub name: Text,
    pub keys: KeyNumbers,
}

/// Crates in the order of their ids.
pub type NoticeCrates = ListOf<NoticeCrate>;

/// Which licences crates are used under, and the texts of these.
#[derive(Drop)]
pub struct Notice {
    pub crates: NoticeCrates,
    /// Each text once, in the order of their numbers.
    pub texts: Texts,
}

/// Why there is no notice.
#[derive(Drop)]
pub enum NoticeError {
    /// The first term of the first crate for which there is no text.
    NoText { id: Text, key: Text },
    Memory,
}

impl From<AllocError> for NoticeError {
    ghost use Rattle.check_notice.specs.declared.notice.NoticeError.TheVariants.{Memory};

    ghost from_gives = { λ _ error. error ≡ Memory };

    fn from(_: AllocError) -> NoticeError {
        NoticeError::Memory
    }
}

/// The crates that are listed so far, and their texts.
#[derive(Drop)]
pub(crate) struct NoticeProgress {
    pub(crate) numbers: TextNumbers,
    pub(crate) crates: NoticeCrates,
}

/// A blank in the place of a LF.
fn line_byte(byte: u8) -> u8
    ensures { result ≡ spec.line_byte byte }
{
    if byte == b'\n' { b' ' } else { byte }
}

/// The bytes of a text, with a blank in the place of each LF.
fn line_bytes(alloc: Global, text: &str) -> Result<Bytes, AllocError>
    ensures { IfOk result (λ line. line ≡ in_line text.now) }
{
    let mut line = Bytes::new(alloc);
    'bytes: for byte in text.as_bytes() {
        line.push(line_byte(*byte))?;
    }
    Ok(line)
}

/// A text with a blank in the place of each LF.
fn in_line(alloc: Global, text: &str) -> Result<Text, AllocError>
    ensures { IfOk result (λ line. line ≡ in_line text.now) }
{
    let line = line_bytes(alloc, text)?;
    match String::from_utf8(line.into_vec()) {
        Ok(line) => Ok(Text::from(line)),
        Err(_) => unreachable!(),
    }
}

/// `{name}@{version}`, in a line.
fn name_of(alloc: Global, krate: &Krate) -> Result<Text, AllocError>
    ensures { IfOk result (λ name. name ≡ spec.name_of (record_of krate.now)) }
{
    let name = in_line(alloc, krate.name.as_str())?;
    let version = &krate.version;
    let text = format!(in alloc; "{name}@{version}")?;
    Ok(Text::from(text))
}

/// A crate under the keys that it is used under.
fn told_crate(alloc: Global, krate: &Krate, keys: KeyNumbers) -> Result<NoticeCrate, AllocError>
    ensures { IfOk result (λ told. told ≡ spec.told_as (record_of krate.now) keys) }
{
    let id = Text::copy(alloc, krate.id.as_str())?;
    let name = name_of(alloc, krate)?;
    Ok(NoticeCrate { id, name, keys })
}

/// What is listed, with an accepted crate.
fn with_crate<I: Identifier + TextLookup>(
    alloc: Global,
    source: &NoticeSource<'_>,
    finder: &TextFinder<'_, I>,
    progress: NoticeProgress,
) -> Result<NoticeProgress, NoticeError>
    ensures { AnswersProgress
        (told_with (finder_sources I.match_of I.text_of finder.now) progress (noticed_of source.now)) result }
{
    let terms = used_terms(alloc, source.report)?;
    let own = source.own.texts.items();
    let names = names_of(alloc, own, finder)?;
    let NoticeProgress {
        numbers,
        mut crates,
    } = progress;
    match cites(alloc, own, names.items(), finder, terms.items(), numbers) {
        Ok(Cited { numbers, keys }) => {
            let told = told_crate(alloc, source.krate, keys)?;
            crates.push(told)?;
            Ok(NoticeProgress { numbers, crates })
        }
        Err(CiteError::NoText(key)) => {
            let id = Text::copy(alloc, source.krate.id.as_str())?;
            Err(NoticeError::NoText { id, key })
        }
        Err(CiteError::Memory) => Err(NoticeError::Memory),
    }
}

/// Whether a crate is accepted.
fn is_accepted(verdict: &Verdict) -> bool
    ensures { result ≡ spec.is_accepted verdict.now }
{
    match verdict {
        Verdict::Accepted { .. } => true,
        Verdict::Skipped | Verdict::Unlicensed | Verdict::Rejected { .. } => false,
    }
}

/// What is listed, with a crate, where that is accepted.
fn with_source<I: Identifier + TextLookup>(
    alloc: Global,
    source: &NoticeSource<'_>,
    finder: &TextFinder<'_, I>,
    progress: NoticeProgress,
) -> Result<NoticeProgress, NoticeError>
    ensures { AnswersProgress
        (told_by (finder_sources I.match_of I.text_of finder.now) progress (noticed_of source.now)) result }
{
    if is_accepted(&source.report.verdict) {
        return with_crate(alloc, source, finder, progress);
    }
    Ok(progress)
}

/// What is listed of crates, in order.
fn progress_of<I: Identifier + TextLookup>(
    alloc: Global,
    sources: &[NoticeSource<'_>],
    finder: &TextFinder<'_, I>,
) -> Result<NoticeProgress, NoticeError>
    ensures { AnswersProgress (all_told_by (finder_sources I.match_of I.text_of finder.now) nothing_told
        (map noticed_of sources.now)) result }
{
    let mut progress = NoticeProgress {
        numbers: TextNumbers::new(alloc),
        crates: NoticeCrates::new(alloc),
    };
    'sources: for source in sources {
        progress = with_source(alloc, source, finder, progress)?;
    }
    Ok(progress)
}

/// The notice of crates, in order: each that is accepted is listed with the terms of its choice, each term with the
/// number of its text. The text is the first one that comes with the crate and is identified as this licence; else the
/// one that is kept under the term's key. It is refused where a term has none.
#[tactic(auto, using(crate::proofs::NoticeLemmas::notice_told, crate::proofs::NoticeLemmas::notice_missing))]
pub fn notice_of<I: Identifier + TextLookup>(
    alloc: Global,
    sources: &[NoticeSource<'_>],
    finder: &TextFinder<'_, I>,
) -> Result<Notice, NoticeError>
    // a crate that is rejected, or has no expression, is refused before
    requires { first_unaccepted (map noticed_of sources.now) ≡ None }
    ensures { AnswersNotice (finder_sources I.match_of I.text_of finder.now) (map noticed_of sources.now) result }
{
    let NoticeProgress { numbers, crates } = progress_of(alloc, sources, finder)?;
    Ok(Notice {
        crates,
        texts: numbers.into_texts(),
    })
}
