//! The command `check` of a request.
//! Called by `answer_request` of `answer`; `begun` may be read earlier, `check_since` is the first to write.
ghost use Rattle.std.specs.Prelude.{◌≡◌, ◌≤◌, None, IfErr};
ghost use Rattle.tree_core.specs.texts.Cause.{ReadCounts};
ghost use Rattle.run_found.specs.Error.{cause_of};
ghost use Rattle.run_found.specs.Hearing.{seen_between};
ghost use Rattle.run_found.specs.Written.{sink_between};
ghost use Rattle.run_command.specs.Given.{command_asked};
ghost use Rattle.run_command.specs.Prelude.{Runs};
ghost use Rattle.run_check.specs.Carried.{unsupported_of};
ghost use Rattle.run_check.specs.Given.{check_arguments_of, check_options};
ghost use Rattle.run_check.specs.Report.{LabelsLie};
ghost use Rattle.deny_run.specs.Check.{Checks};

use crate::summary::write_summary;
use run_check::{Report, check_since, unsupported_in};
use run_command::lists_of_request;
use run_found::Error;
use run_request::Request;
use run_request::check::CheckArgs;
use spdx_core::{Catalog, Identifier, TextLookup};
use std::alloc::Global;
use tree_core::{Sink, Tree};

/// The report of a check by some names and texts, all of whose request is carried, with what was found on `err`, and
/// then its summary on its sink.
fn check_by<T: Tree, O: Sink, E: Sink, C: Catalog, I: Identifier + TextLookup>(
    alloc: Global,
    request: &Request,
    args: &CheckArgs,
    tree: &mut T,
    out: &mut O,
    err: &mut E,
    catalog: &C,
    identifier: &I,
) -> Result<Report, Error>
    requires { unsupported_of request.now.log_ctx args.now request.now.krate_ctx ≡ None }
    ensures checks { Checks args.now.show_stats
        (sink_between O.written O.fault_count out.old out.new)
        (sink_between E.written E.fault_count err.old err.new)
        (check_arguments_of (C.lists catalog.now) (I.match_of identifier.now) request.now.log_ctx args.now request.now.krate_ctx)
        (seen_between T.content T.fault_count T.trace tree.old tree.new) result }
    ensures labels { LabelsLie result }
    ensures counts { IfErr result (λ error. ReadCounts
        (T.fault_count tree.old) (T.fault_count tree.old) (T.fault_count tree.new) (cause_of error)) }
    ensures out_later { O.fault_count out.old ≤ O.fault_count out.new }
    ensures err_later { E.fault_count err.old ≤ E.fault_count err.new }
{
    let begun = err.faults();
    let log_ctx = request.log_ctx;
    match check_since(
        alloc,
        tree,
        err,
        catalog,
        identifier,
        log_ctx,
        args,
        &request.krate_ctx,
    ) {
        Err(error) => Err(error),
        Ok(report) => match write_summary(
            alloc,
            &report,
            args.show_stats,
            log_ctx,
            out,
            err,
            begun,
        ) {
            Ok(()) => Ok(report),
            Err(error) => Err(error),
        },
    }
}

/// The report that a request for a check asks for, behind what comes before it. What is printed of the
/// policy's load and what was found goes to `err`, and the summary to its sink.
pub(crate) fn check_request<T: Tree, O: Sink, E: Sink, C: Catalog, I: Identifier + TextLookup>(
    alloc: Global,
    request: &Request,
    args: &CheckArgs,
    tree: &mut T,
    out: &mut O,
    err: &mut E,
    catalog: &C,
    identifier: &I,
) -> Result<Report, Error>
    ensures runs { Runs
        (command_asked (C.lists catalog.now) (I.match_of identifier.now) (I.text_of identifier.now) request.now
        (check_options request.now.log_ctx args.now request.now.krate_ctx))
        (Checks args.now.show_stats
        (sink_between O.written O.fault_count out.old out.new)
        (sink_between E.written E.fault_count err.old err.new))
        (seen_between T.content T.fault_count T.trace tree.old tree.new)
        (sink_between E.written E.fault_count err.old err.new)
        (sink_between O.written O.fault_count out.old out.new) result }
    ensures labels { LabelsLie result }
    ensures counts { IfErr result (λ error. ReadCounts
        (T.fault_count tree.old) (T.fault_count tree.old) (T.fault_count tree.new) (cause_of error)) }
    ensures out_later { O.fault_count out.old ≤ O.fault_count out.new }
    ensures err_later { E.fault_count err.old ≤ E.fault_count err.new }
{
    let unsupported = unsupported_in(request.log_ctx, args, &request.krate_ctx);
    match lists_of_request(alloc, tree, request, unsupported, catalog, identifier) {
        Err(error) => Err(error),
        Ok(found) => check_by(
            alloc,
            request,
            args,
            tree,
            out,
            err,
            &found.catalog,
            &found.identifier,
        ),
    }
}
