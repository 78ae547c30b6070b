//! The command `record`.
//! Called by `record_request` of `deny_run`; a verdict may be copied before its id, the write comes last.
ghost use Rattle.std.specs.Prelude.{◌≡◌, ◌≤◌, Err, IfErr, IfOk, IfSome, None, map};
ghost use Rattle.std.specs.List.{AllByRecursion};
ghost use Rattle.spdx_core.specs.Expressions.{IsExpression};
ghost use Rattle.tree_core.specs.texts.Cause.{ReadCounts};
ghost use Rattle.check_record.specs.Items.{IsRecord, IsRecordItem};
ghost use Rattle.check_record.specs.Spelling.{spelled_of};
ghost use Rattle.run_found.specs.Error.{cause_of};
ghost use Rattle.run_found.specs.Hearing.{seen_between};
ghost use Rattle.run_found.specs.Written.{IsSilent, sink_between};
ghost use Rattle.run_command.specs.Carried.{plain_options, unsupported_of};
ghost use Rattle.run_command.specs.Given.{command_arguments_of};
ghost use Rattle.run_record.specs.Judged.{AreJudged, IsJudgedReport};
ghost use Rattle.run_record.specs.Recorded.{Records, RecordsOn, item_in};

use check_record::{Record, RecordItem, RecordItems, encode};
use check_verify::recorded_verdict;
use deny_text::{Bytes, Text};
use diag_print::LogContext;
use run_check::{CrateReport, Report, report_since};
use run_command::{no_levels, write_answer};
use run_found::{CrateReads, Error};
use run_request::KrateContext;
use spdx_core::{Catalog, Expression, Identifier};
use std::alloc::{AllocError, Global};
use tree_core::{Sink, Tree};

/// The terms of an expression follow one another in its tree.
fn expression_facts(expression: &Option<Expression>)
    ensures { IfSome expression.now (λ view. IsExpression view.text view.terms view.tree) }
{
    if let Some(expression) = expression {
        let _terms = expression.requirements();
    }
}

/// What is recorded of the crate of a report.
fn item(alloc: Global, report: &CrateReport) -> Result<RecordItem, AllocError>
    requires { IsJudgedReport report.now }
    ensures item { IfOk result (λ item. item ≡ item_in report.now) }
    ensures is { IfOk result IsRecordItem }
{
    expression_facts(&report.expression);
    let id = Text::copy(alloc, report.id.as_str())?;
    let verdict = recorded_verdict(alloc, &report.verdict)?;
    Ok(RecordItem { id, verdict })
}

/// What is recorded of crates, in order.
fn items(alloc: Global, reports: &[CrateReport]) -> Result<RecordItems, AllocError>
    requires { AllByRecursion IsJudgedReport reports.now }
    ensures items { IfOk result (λ items. items ≡ map item_in reports.now) }
    ensures each { IfOk result (λ items. AllByRecursion IsRecordItem items) }
{
    let mut items = RecordItems::new(alloc);
    'crates: for report in reports {
        let item = item(alloc, report)?;
        items.push(item)?;
    }
    Ok(items)
}

/// The file of the crates of reports.
fn file_of(alloc: Global, reports: &[CrateReport]) -> Result<Bytes, AllocError>
    requires { AreJudged reports.now }
    ensures spelled { IfOk result (λ bytes. bytes ≡ spelled_of (map item_in reports.now)) }
    ensures is { IfOk result (λ _. IsRecord (map item_in reports.now)) }
{
    let items = items(alloc, reports)?;
    encode(alloc, &Record::of(items))
}

/// Writes the file of a report's verdicts, once nothing can be refused any more but that.
fn record_report<O: Sink>(alloc: Global, out: &mut O, report: Report) -> Result<CrateReads, Error>
    requires { AreJudged report.crates }
    ensures records { RecordsOn report
        (sink_between O.written O.fault_count out.old out.new) result }
    ensures later { O.fault_count out.old ≤ O.fault_count out.new }
{
    let file = file_of(alloc, report.crates.items())?;
    let reads = report.into_reads(alloc)?;
    write_answer(out, file.items())?;
    Ok(reads)
}

/// The command `record` of a request, all of which is carried: the verdict of each crate that `check` would
/// tell, with what shows it, is written to `out` as a verdict file, once nothing can be refused any more but
/// that write. What is printed of the policy's load is written to `err`; no finding of the check is. It
/// answers the reads of each crate.
pub fn record_since<T: Tree, O: Sink, S: Sink, C: Catalog, I: Identifier>(
    alloc: Global,
    tree: &mut T,
    out: &mut O,
    err: &mut S,
    catalog: &C,
    identifier: &I,
    log_ctx: LogContext,
    context: &KrateContext,
) -> Result<CrateReads, Error>
    requires { unsupported_of log_ctx context.now ≡ None }
    // The file is that of the report that a check of this request, without options, has by what was read;
    // each refusal is that check's, by its cause, or that of the write.
    ensures records { Records
        (command_arguments_of (C.lists catalog.now) (I.match_of identifier.now) log_ctx context.now
        (plain_options log_ctx context.now))
        (seen_between T.content T.fault_count T.trace tree.old tree.new)
        (sink_between S.written S.fault_count err.old err.new)
        (sink_between O.written O.fault_count out.old out.new)
        result }
    // For want of memory nothing is written.
    ensures silent { result ≡ Err Error.Memory → IsSilent (sink_between O.written O.fault_count out.old out.new) }
    ensures counts { IfErr result (λ error. ReadCounts
        (T.fault_count tree.old) (T.fault_count tree.old) (T.fault_count tree.new) (cause_of error)) }
    ensures out { O.fault_count out.old ≤ O.fault_count out.new }
    ensures err { S.fault_count err.old ≤ S.fault_count err.new }
{
    let levels = no_levels(alloc);
    let report = report_since(
        alloc, tree, err, catalog, identifier, log_ctx, &levels, context,
    )?;
    record_report(alloc, out, report)
}
