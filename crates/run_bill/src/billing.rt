//! The command `bill`.
//! Called by `bill_request` of `deny_run`; a bill may be written in pieces, the write comes last.
ghost use Rattle.std.specs.Prelude.{◌≡◌, ◌≤◌, IfErr, None};
ghost use Rattle.tree_core.specs.texts.Cause.{ReadCounts};
ghost use Rattle.run_found.specs.Error.{cause_of};
ghost use Rattle.run_found.specs.Hearing.{seen_between};
ghost use Rattle.run_found.specs.Written.{sink_between};
ghost use Rattle.run_command.specs.Carried.{plain_options, unsupported_of};
ghost use Rattle.run_command.specs.Given.{command_arguments_of};
ghost use Rattle.run_bill.specs.Billed.{Bills, Compares, ComparesFirst, FindsBill, WritesBill};
ghost use Rattle.run_bill.specs.Steps.{Puts};

use crate::billed::{BilledCrates, ReportedBill};
use crate::comparing::{answer_words, compare_file};
use crate::packages::reported_bill;
use check_bill::bill_bytes;
use diag_print::LogContext;
use run_check::judged_since;
use run_command::{no_levels, write_answer};
use run_found::Error;
use run_request::KrateContext;
use run_request::bill::BillArgs;
use spdx_core::{Catalog, Identifier};
use std::alloc::Global;
use tree_core::{Sink, Tree};

/// The bill of the crates that a request asks for, all of which is carried. What is printed of the policy's load is
/// written to the sink.
fn found_bill<T: Tree, S: Sink, C: Catalog, I: Identifier>(
    alloc: Global,
    tree: &mut T,
    err: &mut S,
    catalog: &C,
    identifier: &I,
    log_ctx: LogContext,
    context: &KrateContext,
    words: &BillArgs,
) -> Result<ReportedBill, Error>
    requires { unsupported_of log_ctx context.now ≡ None }
    ensures finds { FindsBill
        (command_arguments_of (C.lists catalog.now) (I.match_of identifier.now) log_ctx context.now
        (plain_options log_ctx context.now))
        words.now
        (seen_between T.content T.fault_count T.trace tree.old tree.new)
        (sink_between S.written S.fault_count err.old err.new)
        result }
    ensures counts { IfErr result (λ error. ReadCounts
        (T.fault_count tree.old) (T.fault_count tree.old) (T.fault_count tree.new) (cause_of error)) }
    ensures later { S.fault_count err.old ≤ S.fault_count err.new }
{
    let levels = no_levels(alloc);
    let judged = judged_since(
        alloc, tree, err, catalog, identifier, log_ctx, &levels, context,
    )?;
    reported_bill(alloc, words, judged)
}

/// Writes a bill, once nothing can be refused any more but that.
fn put_bill<O: Sink>(alloc: Global, out: &mut O, made: ReportedBill) -> Result<BilledCrates, Error>
    ensures puts { Puts made (sink_between O.written O.fault_count out.old out.new) result }
    ensures later { O.fault_count out.old ≤ O.fault_count out.new }
{
    let ReportedBill { bill, reads } = made;
    let lines = bill_bytes(alloc, &bill)?;
    write_answer(out, lines.items())?;
    Ok(BilledCrates { same: true, reads })
}

/// The bill of a request, all of which is carried, is written to `out`.
fn written_bill<T: Tree, O: Sink, S: Sink, C: Catalog, I: Identifier>(
    alloc: Global,
    tree: &mut T,
    out: &mut O,
    err: &mut S,
    catalog: &C,
    identifier: &I,
    log_ctx: LogContext,
    context: &KrateContext,
    words: &BillArgs,
) -> Result<BilledCrates, Error>
    requires { unsupported_of log_ctx context.now ≡ None }
    ensures writes { WritesBill
        (command_arguments_of (C.lists catalog.now) (I.match_of identifier.now) log_ctx context.now
        (plain_options log_ctx context.now))
        words.now
        (seen_between T.content T.fault_count T.trace tree.old tree.new)
        (sink_between S.written S.fault_count err.old err.new)
        (sink_between O.written O.fault_count out.old out.new)
        result }
    ensures counts { IfErr result (λ error. ReadCounts
        (T.fault_count tree.old) (T.fault_count tree.old) (T.fault_count tree.new) (cause_of error)) }
    ensures out { O.fault_count out.old ≤ O.fault_count out.new }
    ensures err { S.fault_count err.old ≤ S.fault_count err.new }
{
    let made = found_bill(
        alloc, tree, err, catalog, identifier, log_ctx, context, words,
    )?;
    put_bill(alloc, out, made)
}

/// Whether the file at a path is the bill of a request, all of which is carried, but for its moment.
fn compared_bill<T: Tree, S: Sink, C: Catalog, I: Identifier>(
    alloc: Global,
    tree: &mut T,
    err: &mut S,
    catalog: &C,
    identifier: &I,
    log_ctx: LogContext,
    context: &KrateContext,
    words: &BillArgs,
    path: &str,
) -> Result<BilledCrates, Error>
    requires { unsupported_of log_ctx context.now ≡ None }
    ensures compares { ComparesFirst
        (command_arguments_of (C.lists catalog.now) (I.match_of identifier.now) log_ctx context.now
        (plain_options log_ctx context.now))
        words.now path.now
        (seen_between T.content T.fault_count T.trace tree.old tree.new)
        (sink_between S.written S.fault_count err.old err.new)
        result }
    ensures counts { IfErr result (λ error. ReadCounts
        (T.fault_count tree.old) (T.fault_count tree.old) (T.fault_count tree.new) (cause_of error)) }
    ensures later { S.fault_count err.old ≤ S.fault_count err.new }
{
    let bill = found_bill(
        alloc, tree, err, catalog, identifier, log_ctx, context, words,
    )?;
    compare_file(alloc, bill, path, tree)
}

/// The same, and the answer is written to `out`.
fn told_bill<T: Tree, O: Sink, S: Sink, C: Catalog, I: Identifier>(
    alloc: Global,
    tree: &mut T,
    out: &mut O,
    err: &mut S,
    catalog: &C,
    identifier: &I,
    log_ctx: LogContext,
    context: &KrateContext,
    words: &BillArgs,
    path: &str,
) -> Result<BilledCrates, Error>
    requires { unsupported_of log_ctx context.now ≡ None }
    ensures compares { Compares
        (command_arguments_of (C.lists catalog.now) (I.match_of identifier.now) log_ctx context.now
        (plain_options log_ctx context.now))
        words.now path.now
        (seen_between T.content T.fault_count T.trace tree.old tree.new)
        (sink_between S.written S.fault_count err.old err.new)
        (sink_between O.written O.fault_count out.old out.new)
        result }
    ensures counts { IfErr result (λ error. ReadCounts
        (T.fault_count tree.old) (T.fault_count tree.old) (T.fault_count tree.new) (cause_of error)) }
    ensures out { O.fault_count out.old ≤ O.fault_count out.new }
    ensures err { S.fault_count err.old ≤ S.fault_count err.new }
{
    let billed = compared_bill(
        alloc, tree, err, catalog, identifier, log_ctx, context, words, path,
    )?;
    write_answer(out, answer_words(billed.same).as_bytes())?;
    Ok(billed)
}

/// The command `bill` of a request, all of which is carried: an SPDX document of each crate that `check` would look
/// at, with the licence that is declared for it and the one that the policy's choice concludes, is written to
/// `out`, once nothing can be refused any more but that write. With a bill to compare with it is told on `out`
/// whether anything but the moment has changed; that file is read once all licences are settled and all names fit.
/// What is printed of the policy's load is written to `err`; no finding of the check is.
pub fn bill_since<T: Tree, O: Sink, S: Sink, C: Catalog, I: Identifier>(
    alloc: Global,
    tree: &mut T,
    out: &mut O,
    err: &mut S,
    catalog: &C,
    identifier: &I,
    log_ctx: LogContext,
    context: &KrateContext,
    words: &BillArgs,
) -> Result<BilledCrates, Error>
    requires { unsupported_of log_ctx context.now ≡ None }
    // The bill is that of the report that a check of this request, without options, has by what was read. A
    // refusal comes before the command does its own, or it is that of a name, of the file, or of the write.
    ensures bills { Bills
        (command_arguments_of (C.lists catalog.now) (I.match_of identifier.now) log_ctx context.now
        (plain_options log_ctx context.now))
        words.now
        (seen_between T.content T.fault_count T.trace tree.old tree.new)
        (sink_between S.written S.fault_count err.old err.new)
        (sink_between O.written O.fault_count out.old out.new)
        result }
    ensures counts { IfErr result (λ error. ReadCounts
        (T.fault_count tree.old) (T.fault_count tree.old) (T.fault_count tree.new) (cause_of error)) }
    ensures out { O.fault_count out.old ≤ O.fault_count out.new }
    ensures err { S.fault_count err.old ≤ S.fault_count err.new }
{
    match &words.against {
        None => written_bill(
            alloc, tree, out, err, catalog, identifier, log_ctx, context, words,
        ),
        Some(path) => {
            let path = path.as_path();
            told_bill(
                alloc, tree, out, err, catalog, identifier, log_ctx, context, words, path,
            )
        }
    }
}
