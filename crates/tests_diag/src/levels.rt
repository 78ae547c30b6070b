//! Levels of findings that words ask for, and summaries of checks.
use crate::findings::put_level;
use diag_core::LevelFilter;
use diag_print::{Color, Format, LogContext, PrintError};
use diag_stats::{AllStats, Stats, print_stats};
use run_overrides::{OverrideError, overrides_of};
use run_request::{CodeOrLevel, CodeOrLevels, FromWord, LintLevels};
use std::alloc::{AllocError, Global};
use tests_files::tree::{first_word, number_in, pair_of, written};
use tests_files::{AnswerText, Asked, Room, Told};
use tree_core::MemSink;

// ---- levels

/// Appends the code or the level of a word, which is behind an option. A word that is none is passed over.
fn take(levels: &mut LintLevels, option: &str, word: &str) -> Result<(), AllocError> {
    match (option, CodeOrLevel::from_word(word)) {
        ("A", Some(subject)) => levels.allow.push(subject),
        ("W", Some(subject)) => levels.warn.push(subject),
        (_, Some(subject)) => levels.deny.push(subject),
        (_, None) => Ok(()),
    }
}

/// What words ask for: each option with the code or the level behind it, as `-A rejected`. That there was no memory for one is noted.
fn levels_of(out: &mut AnswerText, alloc: Global, words: &str) -> LintLevels {
    let mut levels = LintLevels {
        warn: CodeOrLevels::new(alloc),
        allow: CodeOrLevels::new(alloc),
        deny: CodeOrLevels::new(alloc),
    };
    for uses in words.split('-') {
        let (option, word) = first_word(uses.trim());
        out.needs(take(&mut levels, option, word));
    }
    levels
}

/// Puts the level that words ask for of a code and a level, or what is there twice.
fn put_asked(out: &mut AnswerText, alloc: Global, words: &str, finding: &str) {
    match &overrides_of(alloc, &levels_of(out, alloc, words)) {
        Ok(overrides) => put_level(out, overrides, finding),
        Err(
            OverrideError::OverrideTwice {
                name,
                first,
                second,
            },
        ) => write!(out, "twice: {name} {first:?} {second:?}"),
        Err(OverrideError::Memory) => out.want_memory(),
    }
}

// ---- summaries

/// The errors, warnings, notes and helps of a text of four numbers.
fn stats_named(text: &str) -> Stats {
    let (errors, rest) = first_word(text);
    let (warnings, rest) = first_word(rest);
    let (notes, helps) = first_word(rest);
    Stats {
        errors: number_in(errors) as u64,
        warnings: number_in(warnings) as u64,
        notes: number_in(notes) as u64,
        helps: number_in(helps) as u64,
    }
}

/// The statistics of checks, each its name and four numbers, with commas between.
fn all_named(text: &str) -> AllStats {
    let mut stats = AllStats::default();
    for check in text.split(", ") {
        let (name, numbers) = first_word(check);
        let counted = Some(stats_named(numbers));
        match name {
            "advisories" => stats.advisories = counted,
            "bans" => stats.bans = counted,
            "licenses" => stats.licenses = counted,
            "sources" => stats.sources = counted,
            _ => (),
        }
    }
    stats
}

/// Puts what a sink was given, behind a name, where it was given something.
fn put_sink(out: &mut AnswerText, name: &str, sink: &MemSink) {
    let text = written(sink);
    if !text.is_empty() {
        write!(out, "{name}: {text}");
    }
}

/// What is printed of checks: a format, a level, and `shown` where the full form is asked for.
fn form_of(words: &str) -> (LogContext, bool) {
    let (format, rest) = first_word(words);
    let (level, shown) = first_word(rest);
    let log_ctx = LogContext {
        format: Format::from_word(format).unwrap_or(Format::Sarif),
        color: Color::Auto,
        log_level: LevelFilter::from_word(level).unwrap_or(LevelFilter::Off),
    };
    (log_ctx, shown == "shown")
}

/// Puts what is written to two sinks of the checks in a row, and the exit code.
fn put_written(out: &mut AnswerText, asked: &Asked<'_>, mut first: MemSink, mut second: MemSink) {
    let (form, checks) = pair_of(asked.text);
    let (log_ctx, is_shown) = form_of(form);
    let stats = all_named(checks);
    let code = print_stats(
        asked.alloc,
        &stats,
        is_shown,
        log_ctx,
        &mut first,
        &mut second,
    );
    put_sink(out, "out", &first);
    put_sink(out, "err", &second);
    match code {
        Ok(code) => write!(out, "{code:?}"),
        Err(PrintError::WriteFault { before, after }) => write!(out, "fault {before} {after}"),
        Err(PrintError::Memory) => out.want_memory(),
    }
}

/// Puts the summary of checks. The sinks take seven bytes a call.
fn put_summary(out: &mut AnswerText, asked: &Asked<'_>) {
    let sinks = MemSink::new(asked.alloc, 4000, 7).ok();
    match sinks.zip(MemSink::new(asked.alloc, 4000, 7).ok()) {
        Some((first, second)) => put_written(out, asked, first, second),
        None => out.want_memory(),
    }
}

/// Rows of levels that words ask for, and of summaries.
pub struct Levels;

impl Room for Levels {
    fn answer(&self, asked: &Asked<'_>, out: &mut AnswerText) -> Told {
        let (words, finding) = pair_of(asked.text);
        match asked.group {
            "level that words ask for" => put_asked(out, asked.alloc, words, finding),
            "summary" => put_summary(out, asked),
            _ => return Told::NoSuchGroup,
        }
        Told::Answer
    }
}
