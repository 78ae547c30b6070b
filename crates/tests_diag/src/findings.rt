//! Codes and levels of findings, what overrides make of them, and keys that are no longer wanted.
use crate::sources;
use deny_text::{Span, Text};
use diag_core::{
    Check, CodeMap, Deprecated, DeprecationReason, Diag, Diagnostic, DiagnosticCode,
    DiagnosticOverrides, ErrorSink, LevelFilter, LevelPair, LevelPairs, Pack, Severity,
    log_level_to_severity,
};
use run_request::FromWord;
use std::alloc::{AllocError, Global};
use tests_files::tree::{first_word, number_in, pair_of};
use tests_files::{AnswerText, Asked, Room, Shown, Told};
use tree_core::TreeError;

pub fn severity_named(name: &str) -> Severity {
    match name {
        "Help" => Severity::Help,
        "Note" => Severity::Note,
        "Warning" => Severity::Warning,
        "Error" => Severity::Error,
        _ => Severity::Bug,
    }
}

fn code_named(name: &str) -> Option<DiagnosticCode> {
    DiagnosticCode::from_str(name).ok()
}

/// Puts the place of the code of that name, counted from 1, or else the code at that place and what it says.
fn put_code(out: &mut AnswerText, text: &str) {
    let named = code_named(text);
    let mut place: usize = 0;
    for code in DiagnosticCode::iter() {
        place = place.saturating_add(1);
        if named == Some(code) {
            return write!(out, "{place}");
        }
        if place == number_in(text) {
            return write!(out, "{code}: {}", code.description());
        }
    }
    out.put("none");
}

fn reason_named(name: &str) -> DeprecationReason {
    match name {
        "will be removed" => DeprecationReason::WillBeRemoved(None),
        "will be removed, u" => DeprecationReason::WillBeRemoved(Some("u")),
        "moved to graph" => DeprecationReason::Moved("graph"),
        "renamed to new" => DeprecationReason::Renamed("new"),
        "removed, u" => DeprecationReason::Removed("u"),
        _ => DeprecationReason::MovedAndRenamed {
            table: "graph",
            key: "new",
        },
    }
}

fn deprecated(alloc: Global, name: &str) -> Result<Diagnostic, AllocError> {
    let deprecated = Deprecated {
        key: Span { start: 2, end: 5 },
        reason: reason_named(name),
        file_id: 7,
    };
    deprecated.into_diagnostic(alloc)
}

/// What of a finding is put: its level.
struct Level;

impl Shown<Level> for Diagnostic {
    fn put(&self, out: &mut AnswerText) {
        write!(out, "{:?}", self.severity);
    }
}

/// What of a finding is put: its code.
struct Code;

impl Shown<Code> for Diagnostic {
    fn put(&self, out: &mut AnswerText) {
        match &self.code {
            Some(code) => write!(out, "{code}"),
            None => out.put("none"),
        }
    }
}

/// Takes a word that overrides: `CODE=LEVEL`, or `LEVEL>LEVEL`.
fn take(alloc: Global, overrides: &mut DiagnosticOverrides, word: &str) -> Result<(), AllocError> {
    if let Some((name, level)) = word.split_once('=') {
        let name = Text::copy(alloc, name)?;
        let _ = overrides
            .code_overrides
            .insert(name, severity_named(level))?;
    } else if let Some((input, output)) = word.split_once('>') {
        let (input, output) = (severity_named(input), severity_named(output));
        overrides.level_overrides.push(LevelPair { input, output })?;
    }
    Ok(())
}

/// What words override. That there was no memory for a word is noted.
fn overrides_of(out: &mut AnswerText, alloc: Global, words: &str) -> DiagnosticOverrides {
    let mut overrides = DiagnosticOverrides {
        code_overrides: CodeMap::new(alloc),
        level_overrides: LevelPairs::new(alloc),
    };
    for word in words.split(' ') {
        out.needs(take(alloc, &mut overrides, word));
    }
    overrides
}

/// Puts the level that overrides give to a finding that is as `CODE LEVEL`.
pub fn put_level(out: &mut AnswerText, overrides: &DiagnosticOverrides, finding: &str) {
    let (name, level) = first_word(finding);
    write!(out, "{:?}", overrides.get(name, severity_named(level)));
}

fn put_overridden(out: &mut AnswerText, alloc: Global, words: &str, finding: &str) {
    let overrides = overrides_of(out, alloc, words);
    put_level(out, &overrides, finding);
}

/// Adds a finding that is as `CODE LEVEL`, or as `LEVEL` without a code.
fn push(alloc: Global, pack: &mut Pack, text: &str) -> Result<(), AllocError> {
    let (name, level) = text.split_once(' ').unwrap_or(("", text));
    let finding = Diagnostic::new(alloc, severity_named(level));
    let finding = match name {
        "" => Diag::new(finding, None)?,
        _ => Diag::new(finding.with_code(name)?, None)?,
    };
    pack.push(finding)
}

/// Puts how many packs a sink has, and each finding's level.
impl Shown<Findings> for ErrorSink {
    fn put(&self, out: &mut AnswerText) {
        write!(out, "{}:", self.packs.items().len());
        for pack in self.packs.items() {
            for finding in pack.iter() {
                write!(out, " {:?}", finding.diag.severity);
            }
        }
    }
}

/// Puts what a sink with overrides makes of the findings of a pack.
fn put_packs(out: &mut AnswerText, alloc: Global, words: &str, findings: &str) {
    let mut sink = ErrorSink::new(alloc, Some(overrides_of(out, alloc, words)));
    let mut pack = Pack::new(alloc, Check::Licenses);
    for text in findings.split(", ") {
        out.needs(push(alloc, &mut pack, text));
    }
    out.needs(sink.push(pack));
    sink.put(out);
}

fn tree_error_named(name: &str) -> TreeError {
    match name {
        "Absent" => TreeError::Absent,
        "WrongKind" => TreeError::WrongKind,
        "Failed" => TreeError::Failed,
        _ => TreeError::Memory,
    }
}

fn put_qualified(out: &mut AnswerText, alloc: Global, name: &str) {
    match code_named(name) {
        Some(code) => out.printed(code.qualified_str(alloc)),
        None => out.put("none"),
    }
}

/// Puts the level of findings that the level of a word asks for at least.
fn put_least(out: &mut AnswerText, word: &str) {
    match LevelFilter::from_word(word) {
        Some(level) => write!(out, "{:?}", log_level_to_severity(level)),
        None => out.put("no level"),
    }
}

/// Rows of codes and levels, and of files.
pub struct Findings;

impl Room for Findings {
    fn answer(&self, asked: &Asked<'_>, out: &mut AnswerText) -> Told {
        let (alloc, text) = (asked.alloc, asked.text);
        let (one, other) = pair_of(text);
        match asked.group {
            "why a key is deprecated" => write!(out, "{}", reason_named(text)),
            "level of a deprecated key" => out.made::<Level, _, _>(deprecated(alloc, text)),
            "code of a deprecated key" => out.made::<Code, _, _>(deprecated(alloc, text)),
            "overridden" => put_overridden(out, alloc, one, other),
            "overridden in packs" => put_packs(out, alloc, one, other),
            "failures of a tree" => write!(out, "{}", tree_error_named(text)),
            "codes in their order" | "place of a code" => put_code(out, text),
            "qualified code" => put_qualified(out, alloc, text),
            "code before another" => write!(out, "{}", code_named(one) < code_named(other)),
            "level milder than another" => {
                write!(out, "{}", severity_named(one) < severity_named(other))
            }
            "least level" => put_least(out, text),
            _ => return sources::put(asked, out),
        }
        Told::Answer
    }
}
