//! The command `verify`.
//! Called by `verify_request` of `deny_run`; steps may be counted in any ledger, no answer depends on it.
ghost use Rattle.std.specs.Prelude.{◌≡◌, ◌≤◌, ◌<◌, IfErr, IfOk, None, Ok};
ghost use Rattle.tree_core.specs.texts.Cause.{ReadCounts};
ghost use Rattle.policy_core.specs.valid.View.{policy_of};
ghost use Rattle.check_verify.specs.Verified.{IsVerified};
ghost use Rattle.run_found.specs.Error.{cause_of};
ghost use Rattle.run_found.specs.Hearing.{seen_between};
ghost use Rattle.run_found.specs.Written.{sink_between};
ghost use Rattle.run_command.specs.Carried.{plain_options, unsupported_of};
ghost use Rattle.run_command.specs.Given.{command_arguments_of};
ghost use Rattle.run_record.specs.Steps.{IsRead, TellsHeard};
ghost use Rattle.run_record.specs.Verified.{Verifies, VerifiesFirst, answer_text};

use crate::verdicts::{NoReason, VerifiedCrates, VerifyAnswer};
use check_record::{Record, RecordError, decode};
use check_verify::verify;
use deny_text::Steps;
use diag_core::Files;
use diag_print::LogContext;
use gather_core::Summary;
use policy_core::valid::{CountedPolicy, ValidConfig};
use run_command::{PolicyUse, crates_found, no_levels, write_answer};
use run_found::{Error, licenses_found, reads_of_licenses};
use run_request::KrateContext;
use spdx_core::{Catalog, Identifier};
use std::alloc::{AllocError, Global};
use std::marker::Brand;
use std::sync::ledger::{Blank, Ledger};
use tree_core::texts::read_file_text;
use tree_core::{Sink, Tree};

/// Whether a record is right, with its steps counted in a ledger that is handed in.
fn verify_by_ledger<L: Ledger>(
    ledger: Blank,
    alloc: Global,
    verdicts: &Record,
    summary: &Summary<'_>,
    policy: &ValidConfig,
) -> Result<VerifyAnswer, AllocError>
    requires name { ledger.name ≡ L.name }
    requires parts { ledger.parts ≡ L.parts }
    requires some { 0 < ledger.parts }
    ensures { IfOk result (IsVerified (policy_of policy.now) summary.now.nfos verdicts.now) }
{
    let mut steps = Steps::<L>::new(ledger);
    let counted = CountedPolicy::<L>::of(policy);
    verify(alloc, verdicts, summary, &counted, &mut steps)
}

/// Whether the record that a text spells is right.
fn verify_text(
    alloc: Global,
    policy: &ValidConfig,
    summary: Summary<'_>,
    text: &str,
) -> Result<VerifiedCrates, Error>
    ensures { TellsHeard policy.now summary.entry.nfos (Ok text.now) result }
{
    let verdicts = match decode(alloc, text.as_bytes()) {
        Ok(verdicts) => verdicts,
        Err(RecordError::Syntax) => return Err(Error::RecordSyntax),
        Err(RecordError::Memory) => return Err(Error::Memory),
    };
    let answer = verify_by_ledger::<Brand>(Blank::new(1), alloc, &verdicts, &summary, policy)?;
    let reads = reads_of_licenses(alloc, summary.nfos)?;
    Ok(VerifiedCrates { answer, reads })
}

/// Whether the record at a path is right about the crates of a summary. A failed read carries the tree's counts of
/// faults at the start of this call and after the read.
fn verify_file<T: Tree>(
    alloc: Global,
    policy: &ValidConfig,
    summary: Summary<'_>,
    path: &str,
    tree: &mut T,
) -> Result<VerifiedCrates, Error>
    ensures { IsRead policy.now summary.entry.nfos path.now
        (seen_between T.content T.fault_count T.trace tree.old tree.new) result }
{
    let begun = tree.faults();
    match read_file_text(alloc, tree, path, begun)? {
        Ok(text) => verify_text(alloc, policy, summary, text.as_str()),
        Err(fault) => {
            let reads = reads_of_licenses(alloc, summary.nfos)?;
            Err(Error::RecordRead { fault, reads })
        }
    }
}

/// Whether the record at a path is right about the crates of a request, all of which is carried. What is
/// reported of the policy's load is written to the sink.
fn verified_crates<T: Tree, S: Sink, C: Catalog, I: Identifier>(
    alloc: Global,
    tree: &mut T,
    err: &mut S,
    catalog: &C,
    identifier: &I,
    log_ctx: LogContext,
    context: &KrateContext,
    path: &str,
) -> Result<VerifiedCrates, Error>
    requires { unsupported_of log_ctx context.now ≡ None }
    ensures verifies { VerifiesFirst
        (command_arguments_of (C.lists catalog.now) (I.match_of identifier.now) log_ctx context.now
        (plain_options log_ctx context.now))
        path.now
        (seen_between T.content T.fault_count T.trace tree.old tree.new)
        (sink_between S.written S.fault_count err.old err.new)
        result }
    ensures counts { IfErr result (λ error. ReadCounts
        (T.fault_count tree.old) (T.fault_count tree.old) (T.fault_count tree.new) (cause_of error)) }
    ensures later { S.fault_count err.old ≤ S.fault_count err.new }
{
    let mut files = Files::new(alloc);
    let levels = no_levels(alloc);
    let use_of = PolicyUse {
        levels: &levels,
        with_flags: true,
        threshold: None,
        keeps: false,
    };
    let found = crates_found(
        alloc, context, log_ctx, &use_of, &mut files, tree, err, catalog,
    )?;
    let summary = licenses_found(
        alloc,
        false,
        &found.policy,
        &found.krates,
        &mut files,
        tree,
        catalog,
        identifier,
    )?;
    verify_file(alloc, &found.policy, summary, path, tree)
}

/// The words of an answer, with its line end.
fn answer_words(answer: &VerifyAnswer) -> &'static str
    ensures { result.now ≡ answer_text answer.now }
{
    match answer {
        VerifyAnswer::Yes => "verified\n",
        VerifyAnswer::No(NoReason::Crates) => "not verified: the crates differ\n",
        VerifyAnswer::No(NoReason::Variant(_)) => "not verified: the verdict differs\n",
        VerifyAnswer::No(NoReason::NotAChoice(_)) => "not verified: the places are no choice\n",
        VerifyAnswer::No(NoReason::NotSatisfied(_)) => "not verified: an entry does not satisfy\n",
        VerifyAnswer::No(NoReason::HasHit(_)) => "not verified: a place has a hit\n",
        VerifyAnswer::No(NoReason::NotBlocking(_)) => "not verified: the places do not block\n",
    }
}

/// The command `verify` of a request, all of which is carried: whether the verdict file at a path is right
/// about each crate that `check` would look at, under the policy and over the files as they are. It rests on
/// what the file records and on the crates' licences, and makes no verdict anew. What is printed of the
/// policy's load is written to `err`, and the answer to `out`. The file is read once all licences are
/// settled.
pub fn verify_since<T: Tree, O: Sink, S: Sink, C: Catalog, I: Identifier>(
    alloc: Global,
    tree: &mut T,
    out: &mut O,
    err: &mut S,
    catalog: &C,
    identifier: &I,
    log_ctx: LogContext,
    context: &KrateContext,
    path: &str,
) -> Result<VerifiedCrates, Error>
    requires { unsupported_of log_ctx context.now ≡ None }
    // The answer is about the file, the policy and the licences that were read; a refusal comes before
    // the command does its own, or it is that of the file, or of the write.
    ensures verifies { Verifies
        (command_arguments_of (C.lists catalog.now) (I.match_of identifier.now) log_ctx context.now
        (plain_options log_ctx context.now))
        path.now
        (seen_between T.content T.fault_count T.trace tree.old tree.new)
        (sink_between S.written S.fault_count err.old err.new)
        (sink_between O.written O.fault_count out.old out.new)
        result }
    ensures counts { IfErr result (λ error. ReadCounts
        (T.fault_count tree.old) (T.fault_count tree.old) (T.fault_count tree.new) (cause_of error)) }
    ensures out { O.fault_count out.old ≤ O.fault_count out.new }
    ensures err { S.fault_count err.old ≤ S.fault_count err.new }
{
    let crates = verified_crates(
        alloc, tree, err, catalog, identifier, log_ctx, context, path,
    )?;
    write_answer(out, answer_words(&crates.answer).as_bytes())?;
    Ok(crates)
}
