//! The commands `list`, `record`, `verify`, `bill`, `notice` and `why` of a request, behind what comes before each.
//! Called by `answer_request` of `answer`; each of the six may change by itself, `Runs` ties none to another.
ghost use Rattle.std.specs.Prelude.{◌≤◌, IfErr};
ghost use Rattle.tree_core.specs.texts.Cause.{ReadCounts};
ghost use Rattle.run_found.specs.Error.{cause_of};
ghost use Rattle.run_found.specs.Hearing.{seen_between};
ghost use Rattle.run_found.specs.Written.{sink_between};
ghost use Rattle.run_command.specs.Carried.{plain_options};
ghost use Rattle.run_command.specs.Given.{command_asked};
ghost use Rattle.run_command.specs.Prelude.{Runs, RunsBy};
ghost use Rattle.run_list.specs.Given.{list_options};
ghost use Rattle.run_why.specs.Given.{why_options};
ghost use Rattle.deny_run.specs.Ends.{BillsAs, ListsAs, NoticesAs, RecordsAs, TellsAs, VerifiesAs};

use deny_text::Texts;
use run_bill::{BilledCrates, bill_since};
use run_command::{lists_of_request, unsupported_in};
use run_found::{CrateReads, Error};
use run_list::list_since;
use run_notice::{NoticedCrates, notice_since};
use run_record::{VerifiedCrates, record_since, verify_since};
use run_request::Request;
use run_request::bill::BillArgs;
use run_request::list::ListArgs;
use run_why::{unsupported_words, why_since};
use spdx_core::{Catalog, Identifier, TextLookup};
use std::alloc::Global;
use tree_core::{Sink, Tree};

/// The crates of a request are listed on `out`; what is printed of the policy's load goes to `err`.
pub(crate) fn list_request<T: Tree, O: Sink, E: Sink, C: Catalog, I: Identifier + TextLookup>(
    alloc: Global,
    request: &Request,
    args: ListArgs,
    tree: &mut T,
    out: &mut O,
    err: &mut E,
    catalog: &C,
    identifier: &I,
) -> Result<CrateReads, Error>
    ensures runs { Runs
        (command_asked (C.lists catalog.now) (I.match_of identifier.now) (I.text_of identifier.now) request.now
        (list_options request.now.log_ctx args request.now.krate_ctx))
        (ListsAs args
        (sink_between O.written O.fault_count out.old out.new)
        (sink_between E.written E.fault_count err.old err.new))
        (seen_between T.content T.fault_count T.trace tree.old tree.new)
        (sink_between E.written E.fault_count err.old err.new)
        (sink_between O.written O.fault_count out.old out.new) result }
    ensures counts { IfErr result (λ error. ReadCounts
        (T.fault_count tree.old) (T.fault_count tree.old) (T.fault_count tree.new) (cause_of error)) }
    ensures out_later { O.fault_count out.old ≤ O.fault_count out.new }
    ensures err_later { E.fault_count err.old ≤ E.fault_count err.new }
{
    let unsupported = unsupported_in(request.log_ctx, &request.krate_ctx);
    match lists_of_request(alloc, tree, request, unsupported, catalog, identifier) {
        Err(error) => Err(error),
        Ok(found) => list_since(
            alloc,
            tree,
            out,
            err,
            &found.catalog,
            &found.identifier,
            request.log_ctx,
            args,
            &request.krate_ctx,
        ),
    }
}

/// The verdicts on the crates of a request are written to `out`, and what is printed of the policy's load to
/// `err`.
pub(crate) fn record_request<T: Tree, O: Sink, E: Sink, C: Catalog, I: Identifier + TextLookup>(
    alloc: Global,
    request: &Request,
    tree: &mut T,
    out: &mut O,
    err: &mut E,
    catalog: &C,
    identifier: &I,
) -> Result<CrateReads, Error>
    ensures runs { Runs
        (command_asked (C.lists catalog.now) (I.match_of identifier.now) (I.text_of identifier.now) request.now
        (plain_options request.now.log_ctx request.now.krate_ctx))
        (RecordsAs
        (sink_between O.written O.fault_count out.old out.new)
        (sink_between E.written E.fault_count err.old err.new))
        (seen_between T.content T.fault_count T.trace tree.old tree.new)
        (sink_between E.written E.fault_count err.old err.new)
        (sink_between O.written O.fault_count out.old out.new) result }
    ensures counts { IfErr result (λ error. ReadCounts
        (T.fault_count tree.old) (T.fault_count tree.old) (T.fault_count tree.new) (cause_of error)) }
    ensures out_later { O.fault_count out.old ≤ O.fault_count out.new }
    ensures err_later { E.fault_count err.old ≤ E.fault_count err.new }
{
    let unsupported = unsupported_in(request.log_ctx, &request.krate_ctx);
    match lists_of_request(alloc, tree, request, unsupported, catalog, identifier) {
        Err(error) => Err(error),
        Ok(found) => record_since(
            alloc,
            tree,
            out,
            err,
            &found.catalog,
            &found.identifier,
            request.log_ctx,
            &request.krate_ctx,
        ),
    }
}

/// It is reported on `out` whether the verdict file at a path is right about the crates of a request; what is
/// reported of the policy's load goes to `err`.
pub(crate) fn verify_request<T: Tree, O: Sink, E: Sink, C: Catalog, I: Identifier + TextLookup>(
    alloc: Global,
    request: &Request,
    path: &str,
    tree: &mut T,
    out: &mut O,
    err: &mut E,
    catalog: &C,
    identifier: &I,
) -> Result<VerifiedCrates, Error>
    ensures runs { Runs
        (command_asked (C.lists catalog.now) (I.match_of identifier.now) (I.text_of identifier.now) request.now
        (plain_options request.now.log_ctx request.now.krate_ctx))
        (VerifiesAs path.now
        (sink_between O.written O.fault_count out.old out.new)
        (sink_between E.written E.fault_count err.old err.new))
        (seen_between T.content T.fault_count T.trace tree.old tree.new)
        (sink_between E.written E.fault_count err.old err.new)
        (sink_between O.written O.fault_count out.old out.new) result }
    ensures counts { IfErr result (λ error. ReadCounts
        (T.fault_count tree.old) (T.fault_count tree.old) (T.fault_count tree.new) (cause_of error)) }
    ensures out_later { O.fault_count out.old ≤ O.fault_count out.new }
    ensures err_later { E.fault_count err.old ≤ E.fault_count err.new }
{
    let unsupported = unsupported_in(request.log_ctx, &request.krate_ctx);
    match lists_of_request(alloc, tree, request, unsupported, catalog, identifier) {
        Err(error) => Err(error),
        Ok(found) => verify_since(
            alloc,
            tree,
            out,
            err,
            &found.catalog,
            &found.identifier,
            request.log_ctx,
            &request.krate_ctx,
            path,
        ),
    }
}

/// A bill of the crates of a request is written to `out`, or it is told there whether one has changed; what is
/// printed of the policy's load goes to `err`.
pub(crate) fn bill_request<T: Tree, O: Sink, E: Sink, C: Catalog, I: Identifier + TextLookup>(
    alloc: Global,
    request: &Request,
    args: &BillArgs,
    tree: &mut T,
    out: &mut O,
    err: &mut E,
    catalog: &C,
    identifier: &I,
) -> Result<BilledCrates, Error>
    ensures runs { Runs
        (command_asked (C.lists catalog.now) (I.match_of identifier.now) (I.text_of identifier.now) request.now
        (plain_options request.now.log_ctx request.now.krate_ctx))
        (BillsAs args.now
        (sink_between O.written O.fault_count out.old out.new)
        (sink_between E.written E.fault_count err.old err.new))
        (seen_between T.content T.fault_count T.trace tree.old tree.new)
        (sink_between E.written E.fault_count err.old err.new)
        (sink_between O.written O.fault_count out.old out.new) result }
    ensures counts { IfErr result (λ error. ReadCounts
        (T.fault_count tree.old) (T.fault_count tree.old) (T.fault_count tree.new) (cause_of error)) }
    ensures out_later { O.fault_count out.old ≤ O.fault_count out.new }
    ensures err_later { E.fault_count err.old ≤ E.fault_count err.new }
{
    let unsupported = unsupported_in(request.log_ctx, &request.krate_ctx);
    match lists_of_request(alloc, tree, request, unsupported, catalog, identifier) {
        Err(error) => Err(error),
        Ok(found) => bill_since(
            alloc,
            tree,
            out,
            err,
            &found.catalog,
            &found.identifier,
            request.log_ctx,
            &request.krate_ctx,
            args,
        ),
    }
}

/// The licences that the crates of a request are used under are written to `out`, with their texts, and what is printed
/// of the policy's load to `err`.
pub(crate) fn notice_request<T: Tree, O: Sink, E: Sink, C: Catalog, I: Identifier + TextLookup>(
    alloc: Global,
    request: &Request,
    tree: &mut T,
    out: &mut O,
    err: &mut E,
    catalog: &C,
    identifier: &I,
) -> Result<NoticedCrates, Error>
    ensures runs { RunsBy
        (command_asked (C.lists catalog.now) (I.match_of identifier.now) (I.text_of identifier.now) request.now
        (plain_options request.now.log_ctx request.now.krate_ctx))
        (NoticesAs
        (sink_between O.written O.fault_count out.old out.new)
        (sink_between E.written E.fault_count err.old err.new))
        (seen_between T.content T.fault_count T.trace tree.old tree.new)
        (sink_between E.written E.fault_count err.old err.new)
        (sink_between O.written O.fault_count out.old out.new) result }
    ensures counts { IfErr result (λ error. ReadCounts
        (T.fault_count tree.old) (T.fault_count tree.old) (T.fault_count tree.new) (cause_of error)) }
    ensures out_later { O.fault_count out.old ≤ O.fault_count out.new }
    ensures err_later { E.fault_count err.old ≤ E.fault_count err.new }
{
    let unsupported = unsupported_in(request.log_ctx, &request.krate_ctx);
    match lists_of_request(alloc, tree, request, unsupported, catalog, identifier) {
        Err(error) => Err(error),
        Ok(found) => notice_since(
            alloc,
            tree,
            out,
            err,
            &found.catalog,
            &found.identifier,
            request.log_ctx,
            &request.krate_ctx,
        ),
    }
}

/// What the verdicts on the crates of a request rest on is written to `out`, and what is printed of the policy's load to
/// `err`.
pub(crate) fn why_request<T: Tree, O: Sink, E: Sink, C: Catalog, I: Identifier + TextLookup>(
    alloc: Global,
    request: &Request,
    words: &Texts,
    tree: &mut T,
    out: &mut O,
    err: &mut E,
    catalog: &C,
    identifier: &I,
) -> Result<CrateReads, Error>
    ensures runs { Runs
        (command_asked (C.lists catalog.now) (I.match_of identifier.now) (I.text_of identifier.now) request.now
        (why_options request.now.log_ctx request.now.krate_ctx words.now))
        (TellsAs words.now
        (sink_between O.written O.fault_count out.old out.new)
        (sink_between E.written E.fault_count err.old err.new))
        (seen_between T.content T.fault_count T.trace tree.old tree.new)
        (sink_between E.written E.fault_count err.old err.new)
        (sink_between O.written O.fault_count out.old out.new) result }
    ensures counts { IfErr result (λ error. ReadCounts
        (T.fault_count tree.old) (T.fault_count tree.old) (T.fault_count tree.new) (cause_of error)) }
    ensures out_later { O.fault_count out.old ≤ O.fault_count out.new }
    ensures err_later { E.fault_count err.old ≤ E.fault_count err.new }
{
    let unsupported = unsupported_words(request.log_ctx, &request.krate_ctx, words);
    match lists_of_request(alloc, tree, request, unsupported, catalog, identifier) {
        Err(error) => Err(error),
        Ok(found) => why_since(
            alloc,
            tree,
            out,
            err,
            &found.catalog,
            &found.identifier,
            request.log_ctx,
            &request.krate_ctx,
            words,
        ),
    }
}
