//! The summary for a person.
ghost use Rattle.std.specs.Prelude.{◌≡◌, ◌+◌, ◌≤◌, ◌++◌, length, replicate, OnOk, string_bytes};
ghost use Rattle.std.specs.List.{flat_map};
ghost use Rattle.diag_stats.specs.Checks.{status_text};
ghost use Rattle.diag_stats.specs.Human.{behind_comma, counts_text, full_line, full_text, human_text};
ghost use Rattle.diag_stats.specs.Human.{joined_checks, widest_check, short_text, space};

use crate::checks::{CheckStats, check_word, status_word};
use crate::stats::Stats;
use diag_core::LevelFilter;
use std::alloc::AllocError;

/// Appends the name of a check, and how it went.
fn push_status(out: &mut String, check: CheckStats) -> Result<(), AllocError>
    ensures { OnOk result (string_bytes out.new ≡ string_bytes out.old ++ status_text check) }
{
    out.push_str(check_word(check.check))?;
    out.push_str(" ")?;
    out.push_str(status_word(check.stats))
}

// ---- the short form

/// Appends checks, each behind a comma.
fn push_others(out: &mut String, checks: &[CheckStats]) -> Result<(), AllocError>
    ensures { OnOk result (string_bytes out.new ≡ string_bytes out.old ++ flat_map behind_comma checks.now) }
{
    'checks: for check in checks {
        out.push_str(", ")?;
        push_status(out, *check)?;
    }
    Ok(())
}

/// Appends checks, with commas between.
fn push_joined(out: &mut String, checks: &[CheckStats]) -> Result<(), AllocError>
    ensures { OnOk result (string_bytes out.new ≡ string_bytes out.old ++ joined_checks checks.now) }
{
    match checks.split_first() {
        Some((first, others)) => {
            push_status(out, *first)?;
            push_others(out, others)
        }
        None => Ok(()),
    }
}

/// Appends one line of the checks and how they went.
fn push_short(out: &mut String, checks: &[CheckStats]) -> Result<(), AllocError>
    ensures { OnOk result (string_bytes out.new ≡ string_bytes out.old ++ short_text checks.now) }
{
    push_joined(out, checks)?;
    out.push_str("\n")
}

// ---- the full form

/// How long the text is of a check and how it went.
fn text_length(check: CheckStats) -> usize
    ensures value { result ≡ length (status_text check) }
    ensures few { result ≤ 17 }
{
    check_word(check.check).len() + 1 + status_word(check.stats).len()
}

/// How long the longest of these texts is.
fn longest(checks: &[CheckStats]) -> usize
    ensures value { result ≡ widest_check checks.now }
    ensures few { result ≤ 17 }
{
    let mut most: usize = 0;
    'checks: for check in checks {
        most = most.max(text_length(*check));
    }
    most
}

/// Appends so many spaces.
fn push_spaces(out: &mut String, count: usize) -> Result<(), AllocError>
    ensures { OnOk result (string_bytes out.new ≡ string_bytes out.old ++ replicate count space) }
{
    'spaces: for _place in 0..count {
        out.push_str(" ")?;
    }
    Ok(())
}

/// Appends the numbers of findings.
fn push_counts(out: &mut String, stats: Stats) -> Result<(), AllocError>
    ensures { OnOk result (string_bytes out.new ≡ string_bytes out.old ++ counts_text stats) }
{
    let errors = stats.errors;
    let warnings = stats.warnings;
    let notes = u128::from(stats.notes) + u128::from(stats.helps);
    write!(
        out,
        ": {errors} errors, {warnings} warnings, {notes} notes\n"
    )
}

/// Appends the line of a check, whose name and word end at a column.
fn push_line(out: &mut String, column: usize, check: CheckStats) -> Result<(), AllocError>
    ensures { OnOk result (string_bytes out.new ≡ string_bytes out.old ++ full_line column check) }
{
    push_spaces(out, column.saturating_sub(text_length(check)))?;
    push_status(out, check)?;
    push_counts(out, check.stats)
}

/// Appends the lines of checks, whose names and words end at a column.
fn push_lines(out: &mut String, column: usize, checks: &[CheckStats]) -> Result<(), AllocError>
    ensures { OnOk result (string_bytes out.new
        ≡ string_bytes out.old ++ flat_map (full_line column) checks.now) }
{
    'checks: for check in checks {
        push_line(out, column, *check)?;
    }
    Ok(())
}

/// Appends a line for each check, with its numbers.
fn push_full(out: &mut String, checks: &[CheckStats]) -> Result<(), AllocError>
    ensures { OnOk result (string_bytes out.new ≡ string_bytes out.old ++ full_text checks.now) }
{
    push_lines(out, longest(checks) + 1, checks)
}

/// Appends the summary: in full where that is asked for, else by the level.
pub(crate) fn push_human(
    out: &mut String,
    checks: &[CheckStats],
    show_stats: bool,
    level: LevelFilter,
) -> Result<(), AllocError>
    ensures { OnOk result (string_bytes out.new
        ≡ string_bytes out.old ++ human_text level show_stats checks.now) }
{
    if show_stats {
        return push_full(out, checks);
    }
    match level {
        LevelFilter::Off => Ok(()),
        LevelFilter::Error | LevelFilter::Warn => push_short(out, checks),
        LevelFilter::Info | LevelFilter::Debug | LevelFilter::Trace => push_full(out, checks),
    }
}
