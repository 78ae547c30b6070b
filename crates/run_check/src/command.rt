//! The command `check`.
//! Called by deny_run, run_record and run_sample; the index of the files may be left out, no clause has it.
ghost use Rattle.std.specs.Prelude.{◌≡◌, ◌≤◌, [], None, All, IfErr, IfOk, OnErr};
ghost use Rattle.graph_core.specs.Metadata.{Graph};
ghost use Rattle.graph_core.specs.selection.Choice.{Choice};
ghost use Rattle.graph_core.specs.selection.Listed.{IsChosen};
ghost use Rattle.policy_core.specs.Places.{PolicyStands};
ghost use Rattle.check_core.specs.Labels.{PackLies};
ghost use Rattle.run_request.specs.declared.level.LintLevels.{LintLevels};
ghost use Rattle.run_overrides.specs.Levels.{PutAtLevels};
ghost use Rattle.run_found.specs.Licenses.{IsGatherCut, scanner_of_policy};
ghost use Rattle.tree_core.specs.texts.Cause.{ReadCounts};
ghost use Rattle.run_context.specs.Asked.{unsupported_part};
ghost use Rattle.run_found.specs.Error.{cause_of};
ghost use Rattle.run_found.specs.Hearing.{seen_between};
ghost use Rattle.run_found.specs.Written.{sink_between};
ghost use Rattle.run_command.specs.Given.{command_arguments_of};
ghost use Rattle.run_check.specs.Carried.{unsupported_of};
ghost use Rattle.run_check.specs.Command.{IsCheckRun};
ghost use Rattle.run_check.specs.Given.{check_arguments_of, report_options};
ghost use Rattle.run_check.specs.Judged.{JudgedLabelsLie, Judges};
ghost use Rattle.run_check.specs.Report.{LabelsLie, Reports};
ghost use Rattle.run_check.specs.Script.{WritesCheck};
ghost use Rattle.run_check.specs.Steps.{IsJudgedOn, report_with};

use crate::carried::unsupported_in;
use crate::check::{CheckedCrates, settle_and_judge};
use crate::judged::JudgedCrates;
use crate::report::Report;
use diag_core::Files;
use diag_print::{LogContext, index_packs, print_packs};
use diag_stats::AllStats;
use run_command::{CratesFound, PolicyUse, crates_found};
use run_found::Error;
use run_request::check::CheckArgs;
use run_request::{KrateContext, LintLevels};
use spdx_core::{Catalog, Identifier};
use std::alloc::{AllocError, Global};
use tree_core::{Sink, Tree};

/// The report of a check, and the files that it points into, in which the places that are printed are found
/// fast.
fn report_of(log_ctx: LogContext, checked: CheckedCrates, files: Files) -> Report
    ensures { result ≡ report_with checked files }
{
    let CheckedCrates {
        policy,
        crates,
        findings,
    } = checked;
    let mut files = files;
    index_packs(log_ctx, findings.items(), &mut files);
    Report {
        stats: AllStats::of_findings(findings.items()),
        policy,
        crates,
        findings,
        files,
    }
}

/// The report on the crates that a command looks at, by its policy and its overrides, and the files that were known
/// before. `keeps` says whether it is kept what each licence file is.
pub fn judged_of<T: Tree, C: Catalog, I: Identifier>(
    alloc: Global,
    log_ctx: LogContext,
    keeps: bool,
    found: CratesFound,
    files: Files,
    tree: &mut T,
    catalog: &C,
    identifier: &I,
) -> Result<JudgedCrates, AllocError>
    requires { PolicyStands files found.policy }
    // of each graph and choice that the crates are of, and of any levels that the overrides put findings at
    ensures judged { IfOk result (λ judged. (graph : Graph) (choice : Choice) (levels : LintLevels)
        → IsChosen graph choice found.krates → PutAtLevels levels found.overrides
        → IsJudgedOn (scanner_of_policy keeps (C.lists catalog.now) (I.match_of identifier.now) found.policy)
        levels found (seen_between T.content T.fault_count T.trace tree.old tree.new) files graph choice judged) }
    ensures cut { OnErr result ((graph : Graph) (choice : Choice) → IsChosen graph choice found.krates
        → IsGatherCut (scanner_of_policy keeps (C.lists catalog.now) (I.match_of identifier.now) found.policy)
        found.policy (seen_between T.content T.fault_count T.trace tree.old tree.new) files graph choice) }
    ensures labels { IfOk result (λ judged. All (PackLies judged.report.files) judged.report.findings) }
    ensures places { IfOk result (λ judged. PolicyStands judged.report.files judged.report.policy) }
{
    let CratesFound {
        policy,
        overrides,
        krates,
    } = found;
    let mut files = files;
    let checked = settle_and_judge(
        alloc, keeps, policy, overrides, &krates, &mut files, tree, catalog, identifier,
    )?;
    Ok(JudgedCrates {
        report: report_of(log_ctx, checked, files),
        krates,
    })
}

/// The report that a request asks for, all of which is carried, its findings at these levels, and the crates that
/// it is about. What is reported of the policy's load is written to the sink; what was found is not.
pub fn judged_since<T: Tree, S: Sink, C: Catalog, I: Identifier>(
    alloc: Global,
    tree: &mut T,
    err: &mut S,
    catalog: &C,
    identifier: &I,
    log_ctx: LogContext,
    levels: &LintLevels,
    context: &KrateContext,
) -> Result<JudgedCrates, Error>
    requires { unsupported_part context.now [] ≡ None }
    ensures judges { Judges (command_arguments_of (C.lists catalog.now) (I.match_of identifier.now)
        log_ctx context.now (report_options levels.now None))
        (seen_between T.content T.fault_count T.trace tree.old tree.new)
        (sink_between S.written S.fault_count err.old err.new) result }
    ensures labels { JudgedLabelsLie result }
    ensures counts { IfErr result (λ error. ReadCounts
        (T.fault_count tree.old) (T.fault_count tree.old) (T.fault_count tree.new) (cause_of error)) }
    ensures later { S.fault_count err.old ≤ S.fault_count err.new }
{
    let use_of = PolicyUse {
        levels,
        with_flags: true,
        threshold: None,
        keeps: false,
    };
    let mut files = Files::new(alloc);
    let found = crates_found(
        alloc, context, log_ctx, &use_of, &mut files, tree, err, catalog,
    )?;
    let judged = judged_of(
        alloc, log_ctx, false, found, files, tree, catalog, identifier,
    )?;
    Ok(judged)
}

/// The report that a request asks for, all of which is carried, its findings at these levels. What is
/// reported of the policy's load is written to the sink; what was found is not.
pub fn report_since<T: Tree, S: Sink, C: Catalog, I: Identifier>(
    alloc: Global,
    tree: &mut T,
    err: &mut S,
    catalog: &C,
    identifier: &I,
    log_ctx: LogContext,
    levels: &LintLevels,
    context: &KrateContext,
) -> Result<Report, Error>
    requires { unsupported_part context.now [] ≡ None }
    ensures reports { Reports (command_arguments_of (C.lists catalog.now) (I.match_of identifier.now)
        log_ctx context.now (report_options levels.now None))
        (seen_between T.content T.fault_count T.trace tree.old tree.new)
        (sink_between S.written S.fault_count err.old err.new) result }
    ensures labels { LabelsLie result }
    ensures counts { IfErr result (λ error. ReadCounts
        (T.fault_count tree.old) (T.fault_count tree.old) (T.fault_count tree.new) (cause_of error)) }
    ensures later { S.fault_count err.old ≤ S.fault_count err.new }
{
    let judged = judged_since(
        alloc, tree, err, catalog, identifier, log_ctx, levels, context,
    )?;
    let JudgedCrates { report, .. } = judged;
    Ok(report)
}

/// The report that a request asks for, all of which is carried, with what is printed of the policy's load,
/// and then what was found, written to the sink.
pub fn check_since<T: Tree, S: Sink, C: Catalog, I: Identifier>(
    alloc: Global,
    tree: &mut T,
    err: &mut S,
    catalog: &C,
    identifier: &I,
    log_ctx: LogContext,
    args: &CheckArgs,
    context: &KrateContext,
) -> Result<Report, Error>
    requires { unsupported_of log_ctx args.now context.now ≡ None }
    ensures written { WritesCheck
        (check_arguments_of (C.lists catalog.now) (I.match_of identifier.now) log_ctx args.now context.now)
        (seen_between T.content T.fault_count T.trace tree.old tree.new)
        (sink_between S.written S.fault_count err.old err.new) result }
    ensures labels { LabelsLie result }
    ensures counts { IfErr result (λ error. ReadCounts
        (T.fault_count tree.old) (T.fault_count tree.old) (T.fault_count tree.new) (cause_of error)) }
    ensures later { S.fault_count err.old ≤ S.fault_count err.new }
{
    let begun = err.faults();
    let levels = &args.lint_levels;
    match report_since(
        alloc, tree, err, catalog, identifier, log_ctx, levels, context,
    ) {
        Ok(report) => match print_packs(
            alloc,
            log_ctx,
            report.findings.items(),
            &report.files,
            err,
            begun,
        ) {
            Ok(()) => Ok(report),
            Err(refused) => Err(Error::from(refused)),
        },
        Err(error) => Err(error),
    }
}

/// The command `check` of a request: each crate that the request, its policy and its metadata select gets its
/// verdict. What is printed of the policy's load, and then what was found, is written to the sink; no summary
/// is.
pub fn cmd<T: Tree, S: Sink, C: Catalog, I: Identifier>(
    alloc: Global,
    tree: &mut T,
    err: &mut S,
    catalog: &C,
    identifier: &I,
    log_ctx: LogContext,
    args: CheckArgs,
    krate_ctx: KrateContext,
) -> Result<Report, Error>
    ensures { IsCheckRun
        (check_arguments_of (C.lists catalog.now) (I.match_of identifier.now) log_ctx args krate_ctx)
        (seen_between T.content T.fault_count T.trace tree.old tree.new)
        (sink_between S.written S.fault_count err.old err.new) result }
{
    match unsupported_in(log_ctx, &args, &krate_ctx) {
        Some(what) => Err(Error::NotCarried(what)),
        None => check_since(
            alloc, tree, err, catalog, identifier, log_ctx, &args, &krate_ctx,
        ),
    }
}
