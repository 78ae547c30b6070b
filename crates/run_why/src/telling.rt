//! The texts of the crates that are told.
//! Called by `found_why` of whying; a crate's text may be made anew, their order is in a clause.
ghost use Rattle.std.specs.Prelude.{◌≡◌, ◌≤◌, ◌<◌, ◌++◌, length, map, slice_get, option_copied, option_map, IfOk, IfSome, OnOk};
ghost use Rattle.graph_core.specs.Krate.{record_of};
ghost use Rattle.graph_core.specs.selection.Listed.{record_behind};
ghost use Rattle.check_why.specs.Made.{IsReportInside};
ghost use Rattle.run_check.specs.Headline.{is_against};
ghost use Rattle.run_why.specs.Steps as spec;
ghost use Rattle.run_why.specs.Steps.{AreTexts, CanTell, IsWhole, LieInFiles, TellsTexts, cause_at, followed};
ghost use Rattle.run_why.specs.Why.{answer_text, because_text};

use crate::graph::GraphTold;
use check_core::CrateReport;
use check_core::evaluate::Verdict;
use check_why::{
    CrateAnswer, CrateTitle, PolicyIndex, answer_of, push_lines, push_object, push_unchecked_lines,
    push_unchecked_object,
};
use deny_text::{Text, Texts};
use diag_print::Format;
use graph_core::Krate;
use run_check::{JudgedCrates, Report};
use std::alloc::{AllocError, Global};

/// The text of a crate that is checked, in the format that is asked for.
fn answer_text(alloc: Global, format: Format, answer: &CrateAnswer) -> Result<Text, AllocError>
    ensures { IfOk result (λ text. text ≡ answer_text format answer.now) }
{
    let mut text = String::new(alloc);
    match format {
        Format::Json => push_object(&mut text, alloc, answer)?,
        Format::Human | Format::Sarif => push_lines(&mut text, alloc, answer)?,
    }
    Ok(Text::from(text))
}

/// The text of one that is not, and why.
fn because_text(
    alloc: Global,
    format: Format,
    title: &CrateTitle,
    because: &str,
) -> Result<Text, AllocError>
    ensures { IfOk result (λ text. text ≡ because_text format title.now because.now) }
{
    let mut text = String::new(alloc);
    match format {
        Format::Json => push_unchecked_object(&mut text, alloc, title, because)?,
        Format::Human | Format::Sarif => push_unchecked_lines(&mut text, alloc, title, because)?,
    }
    Ok(Text::from(text))
}

/// Whether the check is against a crate.
fn is_against(verdict: &Verdict) -> bool
    ensures { result ≡ is_against verdict.now }
{
    match verdict {
        Verdict::Unlicensed | Verdict::Rejected { .. } => true,
        Verdict::Skipped | Verdict::Accepted { .. } => false,
    }
}

fn krate_at<'k>(krates: &[&'k Krate], place: usize) -> Option<&'k Krate>
    ensures { result ≡ slice_get krates.now place }
{
    krates.get(place).copied()
}

/// What all crates are told by.
#[derive(Drop)]
struct Telling<'t> {
    format: Format,
    /// Whether words name the crates that are told; else those are told that the check is against.
    has_words: bool,
    told: &'t GraphTold,
    report: &'t Report,
    index: PolicyIndex,
}

impl<'t> Telling<'t> {
    /// Whether a checked crate is told.
    fn wants(&self, place: usize, verdict: &Verdict) -> bool
        ensures { result ≡ spec.wants self.now.has_words self.now.told.now place verdict.now }
    {
        if self.has_words {
            self.told.is_named(place)
        } else {
            is_against(verdict)
        }
    }

    /// Appends the text of the checked crate at a place, where it is told.
    fn push_checked(
        &self,
        alloc: Global,
        texts: &mut Texts,
        place: usize,
        krate: &Krate,
        report: &CrateReport,
    ) -> Result<(), AllocError>
        requires can { CanTell self.now }
        requires place { place < length (followed self.now.told.now) }
        requires inside { IsReportInside self.now.report.now.files report.now }
        ensures { OnOk result (texts.new ≡ texts.old
            ++ spec.checked_texts self.now place (record_of krate.now) report.now) }
    {
        if !self.wants(place, &report.verdict) {
            return Ok(());
        }
        let needed_by = self.told.needed_by(alloc, place)?;
        let answer = answer_of(
            alloc,
            &self.report.files,
            &self.report.policy,
            &self.index,
            krate,
            report,
            needed_by,
        )?;
        let text = answer_text(alloc, self.format, &answer)?;
        texts.push(text)
    }

    /// Appends the text of a crate that is not checked, where a word names it.
    fn push_unchecked(
        &self,
        alloc: Global,
        texts: &mut Texts,
        place: usize,
        because: &str,
    ) -> Result<(), AllocError>
        ensures { OnOk result (texts.new ≡ texts.old ++ spec.unchecked_texts self.now place because.now) }
    {
        if !self.told.is_named(place) {
            return Ok(());
        }
        match self.told.title(place) {
            Some(title) => {
                let text = because_text(alloc, self.format, title, because)?;
                texts.push(text)
            }
            None => Ok(()),
        }
    }

    /// Appends the text of the crate at a place, where it is told: of a checked one by the next report.
    fn push_at(
        &self,
        alloc: Global,
        texts: &mut Texts,
        place: usize,
        krate: Option<&Krate>,
        report: Option<&CrateReport>,
    ) -> Result<(), AllocError>
        requires can { CanTell self.now }
        requires place { place < length (followed self.now.told.now) }
        requires inside { IfSome report (λ own. IsReportInside self.now.report.now.files own.now) }
        ensures { OnOk result (texts.new ≡ texts.old
            ++ spec.texts_at self.now place (cause_at self.now.told.now.causes.items place)
            (option_map record_behind krate.entry) (option_copied report.entry)) }
    {
        match self.told.cause(place) {
            Some(cause) => self.push_unchecked(alloc, texts, place, cause.as_str()),
            None => match (krate, report) {
                (Some(krate), Some(report)) => {
                    self.push_checked(alloc, texts, place, krate, report)
                }
                _ => Ok(()),
            },
        }
    }

    /// The number of the next checked crate behind a place, of so many crates.
    fn behind(&self, place: usize, next: usize, count: usize) -> usize
        requires { next < count }
        ensures { result ≡ spec.behind (cause_at self.now.told.now.causes.items place) next }
    {
        match self.told.cause(place) {
            Some(_) => next,
            None => next + 1,
        }
    }

    /// The texts of all crates that are told, in the order of ids: each checked crate with its report.
    fn texts(&self, alloc: Global, krates: &[&Krate]) -> Result<Texts, AllocError>
        requires { CanTell self.now }
        ensures { IfOk result (AreTexts self.now (map record_behind krates.now)) }
    {
        let mut texts = Texts::new(alloc);
        let reports = self.report.crates.items();
        let count = self.told.len();
        let mut next = 0;
        'places: for place in 0..count {
            let krate = krate_at(krates, next);
            self.push_at(alloc, &mut texts, place, krate, reports.get(next))?;
            next = self.behind(place, next, count);
        }
        Ok(texts)
    }
}

/// The texts of the crates that are told, in the order of ids: with words those that these name, checked or not, else
/// those that the check is against.
pub(crate) fn texts_told(
    alloc: Global,
    format: Format,
    has_words: bool,
    told: &GraphTold,
    judged: &JudgedCrates,
) -> Result<Texts, AllocError>
    requires lie { LieInFiles judged.now.report }
    requires whole { IsWhole told.now }
    ensures { IfOk result (TellsTexts format has_words told.now judged.now) }
{
    let krates = judged.checked(alloc)?;
    let index = PolicyIndex::of(alloc, &judged.report.policy)?;
    let telling = Telling {
        format,
        has_words,
        told,
        report: &judged.report,
        index,
    };
    telling.texts(alloc, krates.items())
}
