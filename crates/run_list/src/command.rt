//! The command `list`.
//! Called by `list_request` of `deny_run`; the files and the use of the policy may be made in either order.
ghost use Rattle.std.specs.Prelude.{◌≡◌, ◌≤◌, All, IfErr, IfOk, None, OnOk};
ghost use Rattle.tree_core.specs.Faults.{Gained};
ghost use Rattle.graph_core.specs.Metadata.{AreRising};
ghost use Rattle.tree_core.specs.texts.Cause.{ReadCounts};
ghost use Rattle.run_found.specs.Error.{cause_of};
ghost use Rattle.run_found.specs.Hearing.{seen_between};
ghost use Rattle.run_found.specs.Written.{sink_between};
ghost use Rattle.run_command.specs.Carried.{unsupported_of};
ghost use Rattle.run_command.specs.Settled.{IsCutBy};
ghost use Rattle.run_list_text.specs.Listing.{listing_of};
ghost use Rattle.run_list.specs.Command.{IsListRun};
ghost use Rattle.run_list.specs.Given.{list_arguments_of};
ghost use Rattle.run_list.specs.Listing.{FindsListing, Lists};

use crate::crates::{CrateListing, listing_of};
use diag_core::Files;
use diag_print::LogContext;
use run_command::{PolicyUse, crates_found, no_levels, unsupported_in};
use run_found::{CrateReads, Error, licenses_found};
use run_list_text::{ListError, ListedCrate, write_listing};
use run_request::KrateContext;
use run_request::list::ListArgs;
use spdx_core::{Catalog, Identifier};
use std::alloc::Global;
use tree_core::{Sink, Tree};

/// What a request and the files have listed: each crate that the request, its policy and its metadata select,
/// whatever the policy allows. The flags of the policy's graph leave none out. What is printed of the
/// policy's load is written to `err`.
fn listing_found<T: Tree, S: Sink, C: Catalog, I: Identifier>(
    alloc: Global,
    tree: &mut T,
    err: &mut S,
    catalog: &C,
    identifier: &I,
    log_ctx: LogContext,
    args: ListArgs,
    context: &KrateContext,
) -> Result<CrateListing, Error>
    requires { unsupported_of log_ctx context.now ≡ None }
    ensures found { FindsListing
        (list_arguments_of (C.lists catalog.now) (I.match_of identifier.now) log_ctx args context.now)
        (seen_between T.content T.fault_count T.trace tree.old tree.new)
        (sink_between S.written S.fault_count err.old err.new) result }
    ensures ordered { IfOk result (λ listing. All (λ listed. AreRising listed.licenses) listing.crates) }
    ensures counts { IfErr result (λ error. ReadCounts
        (T.fault_count tree.old) (T.fault_count tree.old) (T.fault_count tree.new) (cause_of error)) }
    ensures later { S.fault_count err.old ≤ S.fault_count err.new }
{
    let levels = no_levels(alloc);
    let use_of = PolicyUse {
        levels: &levels,
        with_flags: false,
        threshold: Some(args.threshold),
        keeps: false,
    };
    let mut files = Files::new(alloc);
    let found = crates_found(
        alloc, context, log_ctx, &use_of, &mut files, tree, err, catalog,
    )?;
    let summary = licenses_found(
        alloc,
        false,
        &found.policy,
        &found.krates,
        &mut files,
        tree,
        catalog,
        identifier,
    )?;
    listing_of(alloc, summary)
}

/// Writes a listing, in the format and the layout that are asked for. The counts of a refused write are those of this
/// call.
fn write_crates<O: Sink>(
    alloc: Global,
    out: &mut O,
    crates: &[ListedCrate],
    args: ListArgs,
) -> Result<(), Error>
    requires { All (λ listed. AreRising listed.licenses) crates.now }
    ensures ok { OnOk result (Gained (O.written out.old) (O.written out.new)
        (listing_of args.format args.layout crates.now)) }
    ensures cut { IfErr result (λ error. IsCutBy (sink_between O.written O.fault_count out.old out.new)
        (listing_of args.format args.layout crates.now) (cause_of error)) }
    ensures later { O.fault_count out.old ≤ O.fault_count out.new }
{
    let begun = out.faults();
    match write_listing(alloc, crates, args.format, args.layout, out, begun) {
        Ok(()) => Ok(()),
        Err(ListError::Memory) => Err(Error::Memory),
        Err(ListError::WriteFault { before, after }) => Err(Error::WriteFault { before, after }),
    }
}

/// The command `list` of a request, all of which is carried: each crate that the request, its policy and its
/// metadata select is listed with its licences, whatever the policy allows. What is printed of the policy's
/// load is written to `err`, and the listing to `out`. Nothing is checked, so nothing else is reported. The
/// answer has the reads of each crate.
pub fn list_since<T: Tree, O: Sink, S: Sink, C: Catalog, I: Identifier>(
    alloc: Global,
    tree: &mut T,
    out: &mut O,
    err: &mut S,
    catalog: &C,
    identifier: &I,
    log_ctx: LogContext,
    args: ListArgs,
    context: &KrateContext,
) -> Result<CrateReads, Error>
    requires { unsupported_of log_ctx context.now ≡ None }
    ensures lists { Lists
        (list_arguments_of (C.lists catalog.now) (I.match_of identifier.now) log_ctx args context.now)
        (seen_between T.content T.fault_count T.trace tree.old tree.new)
        (sink_between S.written S.fault_count err.old err.new)
        (sink_between O.written O.fault_count out.old out.new) result }
    ensures counts { IfErr result (λ error. ReadCounts
        (T.fault_count tree.old) (T.fault_count tree.old) (T.fault_count tree.new) (cause_of error)) }
    ensures later { S.fault_count err.old ≤ S.fault_count err.new }
    ensures out_later { O.fault_count out.old ≤ O.fault_count out.new }
{
    let listing = listing_found(
        alloc, tree, err, catalog, identifier, log_ctx, args, context,
    )?;
    write_crates(alloc, out, listing.crates.items(), args)?;
    let CrateListing { reads, .. } = listing;
    Ok(reads)
}

/// The command `list` of a request: `list_since`, once a look at the words has shown that all of the
/// request is carried.
pub fn cmd<T: Tree, O: Sink, S: Sink, C: Catalog, I: Identifier>(
    alloc: Global,
    tree: &mut T,
    out: &mut O,
    err: &mut S,
    catalog: &C,
    identifier: &I,
    log_ctx: LogContext,
    args: ListArgs,
    krate_ctx: KrateContext,
) -> Result<CrateReads, Error>
    ensures { IsListRun
        (list_arguments_of (C.lists catalog.now) (I.match_of identifier.now) log_ctx args krate_ctx)
        (seen_between T.content T.fault_count T.trace tree.old tree.new)
        (sink_between S.written S.fault_count err.old err.new)
        (sink_between O.written O.fault_count out.old out.new) result }
{
    match unsupported_in(log_ctx, &krate_ctx) {
        Some(what) => Err(Error::NotCarried(what)),
        None => list_since(
            alloc, tree, out, err, catalog, identifier, log_ctx, args, &krate_ctx,
        ),
    }
}
