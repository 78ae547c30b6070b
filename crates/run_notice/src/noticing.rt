//! The command `notice`.
//! Called by `notice_request` of `deny_run`; a notice may be written in pieces, the write comes last.
ghost use Rattle.std.specs.Prelude.{◌≡◌, ◌≤◌, IfErr, None};
ghost use Rattle.tree_core.specs.texts.Cause.{ReadCounts};
ghost use Rattle.run_found.specs.Error.{cause_of};
ghost use Rattle.run_found.specs.Hearing.{seen_between};
ghost use Rattle.run_found.specs.Written.{sink_between};
ghost use Rattle.run_command.specs.Carried.{plain_options, unsupported_of};
ghost use Rattle.run_command.specs.Given.{command_arguments_of};
ghost use Rattle.run_notice.specs.Noticed.{FindsNotice, Notices};

use crate::making::notice_of_judged;
use crate::noticed::NoticedCrates;
use crate::writing::write_notice;
use diag_print::LogContext;
use run_check::judged_since;
use run_command::no_levels;
use run_found::Error;
use run_request::KrateContext;
use spdx_core::{Catalog, Identifier, TextLookup};
use std::alloc::Global;
use tree_core::{Sink, Tree};

/// The notice of the crates that a request asks for, all of which is carried. What is printed of the policy's load is
/// written to the sink.
fn found_notice<T: Tree, S: Sink, C: Catalog, I: Identifier + TextLookup>(
    alloc: Global,
    tree: &mut T,
    err: &mut S,
    catalog: &C,
    identifier: &I,
    log_ctx: LogContext,
    context: &KrateContext,
) -> Result<NoticedCrates, Error>
    requires { unsupported_of log_ctx context.now ≡ None }
    ensures finds { FindsNotice (I.text_of identifier.now)
        (command_arguments_of (C.lists catalog.now) (I.match_of identifier.now) log_ctx context.now
        (plain_options log_ctx context.now))
        (seen_between T.content T.fault_count T.trace tree.old tree.new)
        (sink_between S.written S.fault_count err.old err.new)
        result }
    ensures counts { IfErr result (λ error. ReadCounts
        (T.fault_count tree.old) (T.fault_count tree.old) (T.fault_count tree.new) (cause_of error)) }
    ensures later { S.fault_count err.old ≤ S.fault_count err.new }
{
    let levels = no_levels(alloc);
    let judged = judged_since(
        alloc, tree, err, catalog, identifier, log_ctx, &levels, context,
    )?;
    notice_of_judged(alloc, judged, identifier, tree)
}

/// The command `notice` of a request, all of which is carried: each crate that `check` accepts is written to `out` with
/// the licences of the policy's choice, and each licence text once, the crate's own file where it has one, else a stored
/// one. Where a crate is rejected or has no licence, and where a text is wanting, nothing is written to `out`. The texts
/// that crates come with are read once all licences are settled and each crate is accepted. What is printed of the
/// policy's load is written to `err`; no finding of the check is.
pub fn notice_since<T: Tree, O: Sink, S: Sink, C: Catalog, I: Identifier + TextLookup>(
    alloc: Global,
    tree: &mut T,
    out: &mut O,
    err: &mut S,
    catalog: &C,
    identifier: &I,
    log_ctx: LogContext,
    context: &KrateContext,
) -> Result<NoticedCrates, Error>
    requires { unsupported_of log_ctx context.now ≡ None }
    // The notice is that of the report that a check of this request, without options, has by what was read, and of the
    // texts that the crates come with. A refusal comes before the command does its own, or it is that of a crate, of a
    // text, or of the write.
    ensures notices { Notices (I.text_of identifier.now)
        (command_arguments_of (C.lists catalog.now) (I.match_of identifier.now) log_ctx context.now
        (plain_options log_ctx context.now))
        (seen_between T.content T.fault_count T.trace tree.old tree.new)
        (sink_between S.written S.fault_count err.old err.new)
        (sink_between O.written O.fault_count out.old out.new)
        result }
    ensures counts { IfErr result (λ error. ReadCounts
        (T.fault_count tree.old) (T.fault_count tree.old) (T.fault_count tree.new) (cause_of error)) }
    ensures out { O.fault_count out.old ≤ O.fault_count out.new }
    ensures err { S.fault_count err.old ≤ S.fault_count err.new }
{
    let noticed = found_notice(alloc, tree, err, catalog, identifier, log_ctx, context)?;
    write_notice(alloc, out, &noticed.notice)?;
    Ok(noticed)
}
