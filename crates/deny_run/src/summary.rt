//! The summary of a report.
//! Called by `check_by` of `check`; a `map_err` may replace the `match`, the counts are in a clause.
ghost use Rattle.std.specs.Prelude.{◌≡◌, ◌≤◌, IfErr, OnOk};
ghost use Rattle.tree_core.specs.Script.{Gains};
ghost use Rattle.diag_stats.specs.Summary.{count_of, summary_of, target_of};
ghost use Rattle.run_found.specs.Error.{cause_of};
ghost use Rattle.run_found.specs.Written.{sink_between, sink_seen};
ghost use Rattle.deny_run.specs.Check.{CutsSummary, texts_before, texts_behind};

use diag_print::{Format, LogContext, PrintError};
use diag_stats::print_stats;
use run_check::Report;
use run_found::Error;
use std::alloc::Global;
use tree_core::Sink;

/// The count of faults, when the run began, of the sink that a summary goes to: `out` has it still.
fn begun_of(format: Format, out: u64, err: u64) -> u64
    ensures { result ≡ count_of (target_of format) out err }
{
    match format {
        Format::Human => out,
        Format::Json | Format::Sarif => err,
    }
}

/// Writes the summary of a report. `begun` is the count of faults of `err` when the run began, which a refused
/// write to it tells; `out` was not written to before.
pub(crate) fn write_summary<O: Sink, E: Sink>(
    alloc: Global,
    report: &Report,
    show_stats: bool,
    log_ctx: LogContext,
    out: &mut O,
    err: &mut E,
    begun: u64,
) -> Result<(), Error>
    requires { begun ≤ E.fault_count err.old }
    ensures ok { OnOk result (Gains
        (texts_before (sink_between O.written O.fault_count out.old out.new)
        (sink_between E.written E.fault_count err.old err.new))
        (texts_behind (sink_between O.written O.fault_count out.old out.new)
        (sink_between E.written E.fault_count err.old err.new))
        (summary_of log_ctx.format log_ctx.log_level show_stats report.now.stats)) }
    ensures err { IfErr result (λ error. CutsSummary (target_of log_ctx.format)
        (sink_between O.written O.fault_count out.old out.new)
        (sink_seen (E.written err.old) (E.written err.new) begun (E.fault_count err.new))
        (texts_before (sink_between O.written O.fault_count out.old out.new)
        (sink_between E.written E.fault_count err.old err.new))
        (summary_of log_ctx.format log_ctx.log_level show_stats report.now.stats) (cause_of error)) }
    ensures out_later { O.fault_count out.old ≤ O.fault_count out.new }
    ensures err_later { E.fault_count err.old ≤ E.fault_count err.new }
{
    match print_stats(alloc, &report.stats, show_stats, log_ctx, out, err) {
        Ok(_) => Ok(()),
        Err(PrintError::Memory) => Err(Error::Memory),
        Err(PrintError::WriteFault { before, after }) => Err(Error::WriteFault {
            before: begun_of(log_ctx.format, before, begun),
            after,
        }),
    }
}
