//! The summary of the checks that ran.
ghost use Rattle.std.specs.Prelude.{◌≡◌, ◌≢◌, ◌≤◌, ◌++◌, [], Err, IfErr, IfOk, IsOk, OnErr, OnOk, string_bytes};
ghost use Rattle.tree_core.specs.Faults.{Gained, GainedPrefix};
ghost use Rattle.tree_core.specs.Script.{Gains};
ghost use Rattle.diag_print.specs.Refusal.{HasReason};
ghost use Rattle.diag_stats.specs.ExitCode.{exit_code_of};
ghost use Rattle.diag_stats.specs.Summary.{HasCountBehind, IsUnwritten, piece_of, sink_counts, summary_of, summary_text};
ghost use Rattle.diag_stats.specs.Summary.{text_of, target_of};

use crate::checks::{CheckStats, checks_of};
use crate::human::push_human;
use crate::json_line::push_json;
use crate::stats::{AllStats, stats_to_exit_code};
use diag_print::{Format, LogContext, PrintError};
use std::alloc::{AllocError, Global};
use tree_core::sink::write_all;
use tree_core::{Sink, SinkFailed};

/// Appends the summary of checks that ran.
fn push_summary(
    out: &mut String,
    alloc: Global,
    checks: &[CheckStats],
    show_stats: bool,
    log_ctx: LogContext,
) -> Result<(), AllocError>
    ensures { OnOk result (string_bytes out.new ≡ string_bytes out.old
        ++ text_of log_ctx.format log_ctx.log_level show_stats checks.now) }
{
    match log_ctx.format {
        Format::Human => push_human(out, checks, show_stats, log_ctx.log_level),
        Format::Json => push_json(out, alloc, checks),
        Format::Sarif => Ok(()),
    }
}

/// The text of the summary.
fn summary_text(
    alloc: Global,
    stats: &AllStats,
    show_stats: bool,
    log_ctx: LogContext,
) -> Result<String, AllocError>
    ensures { IfOk result (λ text. string_bytes text
        ≡ summary_text log_ctx.format log_ctx.log_level show_stats stats.now) }
{
    let checks = checks_of(alloc, stats)?;
    let mut text = String::new(alloc);
    push_summary(&mut text, alloc, checks.items(), show_stats, log_ctx)?;
    Ok(text)
}

/// Writes a text. Of an empty one nothing is written.
fn write_text<S: Sink>(sink: &mut S, text: &str) -> Result<(), PrintError>
    ensures ok { OnOk result (Gained (S.written sink.old) (S.written sink.new) text.now) }
    ensures err { OnErr result (GainedPrefix (S.written sink.old) (S.written sink.new) text.now) }
    ensures refused { result ≢ Err PrintError.Memory }
    ensures reason { IfErr result (HasReason (S.fault_count sink.old) (S.fault_count sink.new)) }
    ensures later { S.fault_count sink.old ≤ S.fault_count sink.new }
    ensures nothing { text.now ≡ [] → IsOk result }
{
    if text.is_empty() {
        return Ok(());
    }
    let before = sink.faults();
    match write_all(sink, text.as_bytes()) {
        Ok(()) => Ok(()),
        Err(SinkFailed) => Err(PrintError::WriteFault {
            before,
            after: sink.faults(),
        }),
    }
}

/// Writes a summary to its sink.
fn write_summary<O: Sink, E: Sink>(
    out: &mut O,
    err: &mut E,
    format: Format,
    text: &str,
) -> Result<(), PrintError>
    ensures ok { OnOk result (Gains
        (record { out = O.written out.old; err = E.written err.old })
        (record { out = O.written out.new; err = E.written err.new })
        (piece_of (target_of format) text.now)) }
    ensures err { IfErr result (IsUnwritten
        (sink_counts (O.fault_count out.old) (O.fault_count out.new) (E.fault_count err.old) (E.fault_count err.new))
        (record { out = O.written out.old; err = E.written err.old })
        (record { out = O.written out.new; err = E.written err.new })
        (piece_of (target_of format) text.now)) }
    ensures behind { IfErr result (HasCountBehind (target_of format) (O.fault_count out.new) (E.fault_count err.new)) }
    ensures out_later { O.fault_count out.old ≤ O.fault_count out.new }
    ensures err_later { E.fault_count err.old ≤ E.fault_count err.new }
{
    match format {
        Format::Human => write_text(out, text),
        Format::Json => write_text(err, text),
        Format::Sarif => write_text(err, text),
    }
}

/// Writes the summary of the checks that ran, and answers the exit code. For a person it goes to `out`: in full
/// where that is asked for or the level is below warnings, else, but at off, in one line. As JSON it goes to
/// `err`, at each level. With SARIF nothing is written.
pub fn print_stats<O: Sink, E: Sink>(
    alloc: Global,
    stats: &AllStats,
    show_stats: bool,
    log_ctx: LogContext,
    out: &mut O,
    err: &mut E,
) -> Result<Option<i32>, PrintError>
    ensures code { IfOk result (λ code. code ≡ exit_code_of stats.now) }
    ensures ok { OnOk result (Gains
        (record { out = O.written out.old; err = E.written err.old })
        (record { out = O.written out.new; err = E.written err.new })
        (summary_of log_ctx.format log_ctx.log_level show_stats stats.now)) }
    // A refused write left a prefix of the summary; where memory was wanting nothing was written.
    ensures err { IfErr result (IsUnwritten
        (sink_counts (O.fault_count out.old) (O.fault_count out.new) (E.fault_count err.old) (E.fault_count err.new))
        (record { out = O.written out.old; err = E.written err.old })
        (record { out = O.written out.new; err = E.written err.new })
        (summary_of log_ctx.format log_ctx.log_level show_stats stats.now)) }
    ensures behind { IfErr result (HasCountBehind (target_of log_ctx.format) (O.fault_count out.new) (E.fault_count err.new)) }
    ensures out_later { O.fault_count out.old ≤ O.fault_count out.new }
    ensures err_later { E.fault_count err.old ≤ E.fault_count err.new }
{
    let text = summary_text(alloc, stats, show_stats, log_ctx)?;
    match write_summary(out, err, log_ctx.format, text.as_str()) {
        Ok(()) => Ok(stats_to_exit_code(stats)),
        Err(error) => Err(error),
    }
}
