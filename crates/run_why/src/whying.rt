//! The command `why`.
//! Called by `why_request` of `deny_run`; the texts may be written in pieces, the write comes last.
ghost use Rattle.std.specs.Prelude.{◌≡◌, ◌≤◌, ℕ, List, [], IfErr, IfOk, None, string_bytes};
ghost use Rattle.tree_core.specs.texts.Cause.{ReadCounts};
ghost use Rattle.spdx_terms.specs.declared.catalog.identifier.Match.{Match};
ghost use Rattle.diag_core.specs.File.{File};
ghost use Rattle.graph_core.specs.selection.Roots.{crates_of};
ghost use Rattle.policy_core.specs.Places.{PolicyStands};
ghost use Rattle.gather_core.specs.Gathered.{include_of};
ghost use Rattle.run_overrides.specs.Levels.{PutAtLevels};
ghost use Rattle.run_found.specs.Error.{cause_of};
ghost use Rattle.run_found.specs.Hearing.{TreeSeen, seen_between};
ghost use Rattle.run_found.specs.Written.{SinkSeen, sink_between};
ghost use Rattle.run_command.specs.Carried as command;
ghost use Rattle.run_command.specs.Crates.{FindsMetadata, HasMetadata, IsTold};
ghost use Rattle.run_command.specs.Given.{command_arguments_of};
ghost use Rattle.run_why.specs.Given.{WhyArguments, unsupported_of, why_arguments_of, why_options};
ghost use Rattle.run_why.specs.Named.{first_unknown};
ghost use Rattle.run_why.specs.Steps as steps;
ghost use Rattle.run_why.specs.Steps.{FindsAsked, IsGraphTold, IsWhole, Puts, joined_texts};
ghost use Rattle.run_why.specs.Why.{FindsWhy, Tells};

use crate::graph::GraphTold;
use crate::named::{has_unsupported_word, unknown_word};
use crate::telling::texts_told;
use deny_text::{Text, Texts};
use diag_core::Files;
use diag_print::LogContext;
use graph_workspace::{Include, UnsupportedPart};
use run_check::{Report, judged_of};
use run_command::{
    CratesFound, MetadataFound, PolicyUse, crates_of, metadata_found, no_levels, unsupported_in,
    write_answer,
};
use run_found::{CrateReads, Error};
use run_request::KrateContext;
use spdx_core::{Catalog, Identifier};
use std::alloc::{AllocError, Global};
use tree_core::{Sink, Tree};

/// What is found: the report of the check, and the text of each crate that is told.
#[derive(Drop)]
pub(crate) struct WhyFound {
    report: Report,
    texts: Texts,
}

/// The first part of a request, or of the words of `why`, that is not carried.
pub fn unsupported_words(
    log_ctx: LogContext,
    context: &KrateContext,
    words: &Texts,
) -> Option<UnsupportedPart>
    ensures { result ≡ unsupported_of log_ctx context.now words.now }
{
    match unsupported_in(log_ctx, context) {
        Some(what) => Some(what),
        None => {
            if has_unsupported_word(words) {
                Some(UnsupportedPart::ExcludeSpec)
            } else {
                None
            }
        }
    }
}

/// The policy of a request, and what the metadata tells, by the options that `why` has.
fn metadata_of<T: Tree, S: Sink, C: Catalog>(
    alloc: Global,
    tree: &mut T,
    err: &mut S,
    catalog: &C,
    log_ctx: LogContext,
    context: &KrateContext,
    words: &Texts,
    files: &mut Files,
) -> Result<MetadataFound, Error>
    requires empty { files.old ≡ [] }
    requires carried { unsupported_of log_ctx context.now words.now ≡ None }
    // whatever identifies texts
    ensures found { (match_of : List ℕ → Match) → FindsMetadata
        (command_arguments_of (C.lists catalog.now) match_of log_ctx context.now
        (why_options log_ctx context.now words.now))
        (seen_between T.content T.fault_count T.trace tree.old tree.new)
        (sink_between S.written S.fault_count err.old err.new)
        files.new result }
    ensures places { IfOk result (λ found. PolicyStands files.new found.policy) }
    ensures overrides { IfOk result (λ found. PutAtLevels command.no_levels found.overrides) }
    ensures counts { IfErr result (λ error. ReadCounts
        (T.fault_count tree.old) (T.fault_count tree.old) (T.fault_count tree.new) (cause_of error)) }
    ensures later { S.fault_count err.old ≤ S.fault_count err.new }
{
    let levels = no_levels(alloc);
    let use_of = PolicyUse {
        levels: &levels,
        with_flags: true,
        threshold: None,
        keeps: true,
    };
    metadata_found(alloc, context, log_ctx, &use_of, files, tree, err, catalog)
}

/// What `why` knows of the metadata that was found, and the first of its words that names no crate.
#[derive(Drop)]
struct MetadataTold {
    told: GraphTold,
    unknown: Option<Text>,
}

/// The crates that are chosen of metadata in which each word names one, and what is known of it.
#[derive(Drop)]
pub(crate) struct WhyCrates {
    crates: CratesFound,
    told: GraphTold,
}

fn told_of(alloc: Global, words: &Texts, found: &MetadataFound) -> Result<MetadataTold, AllocError>
    ensures told { IfOk result (λ told.
        IsGraphTold words.now found.now.asked (include_of found.now.policy) told.told) }
    ensures unknown { IfOk result (λ told.
        told.unknown ≡ first_unknown words.now (crates_of found.now.asked.metadata)) }
{
    let include = Include {
        dev: found.policy.include_dev,
        build: found.policy.include_build,
    };
    let unknown = unknown_word(alloc, words, &found.asked.metadata)?;
    let told = GraphTold::of(alloc, words, &found.asked, include)?;
    Ok(MetadataTold { told, unknown })
}

/// The crates that are chosen of the metadata that was found.
fn chosen_of(alloc: Global, words: &Texts, found: MetadataFound) -> Result<WhyCrates, Error>
    ensures chooses { (given : WhyArguments) (tree : TreeSeen) (err : SinkSeen) (files : List File)
        → given.words ≡ words.now → given.command.options.unsupported ≡ None
        → HasMetadata given.command tree err files found → FindsAsked given tree err files result }
    ensures policy { IfOk result (λ asked. asked.crates.policy ≡ found.policy) }
    ensures overrides { IfOk result (λ asked. asked.crates.overrides ≡ found.overrides) }
    ensures whole { IfOk result (λ asked. IsWhole asked.told) }
    ensures told { IfErr result (λ error. IsTold (cause_of error)) }
{
    let known = told_of(alloc, words, &found)?;
    let MetadataTold { told, unknown } = known;
    let crates = crates_of(alloc, found)?;
    match unknown {
        Some(word) => Err(Error::NoSuchCrate(word)),
        None => Ok(WhyCrates { crates, told }),
    }
}

fn has_any(words: &Texts) -> bool
    ensures { result ≡ steps.has_any words.now }
{
    words.items().first().is_some()
}

/// The crates of a request, all of which is carried, before a file of one is read. What is printed of the policy's load is
/// written to the sink.
fn crates_asked<T: Tree, S: Sink, C: Catalog>(
    alloc: Global,
    tree: &mut T,
    err: &mut S,
    catalog: &C,
    log_ctx: LogContext,
    context: &KrateContext,
    words: &Texts,
    files: &mut Files,
) -> Result<WhyCrates, Error>
    requires empty { files.old ≡ [] }
    requires carried { unsupported_of log_ctx context.now words.now ≡ None }
    // whatever identifies texts
    ensures asked { (match_of : List ℕ → Match) → FindsAsked
        (why_arguments_of (C.lists catalog.now) match_of log_ctx context.now words.now)
        (seen_between T.content T.fault_count T.trace tree.old tree.new)
        (sink_between S.written S.fault_count err.old err.new)
        files.new result }
    ensures places { IfOk result (λ asked. PolicyStands files.new asked.crates.policy) }
    ensures overrides { IfOk result (λ asked. PutAtLevels command.no_levels asked.crates.overrides) }
    ensures whole { IfOk result (λ asked. IsWhole asked.told) }
    ensures counts { IfErr result (λ error. ReadCounts
        (T.fault_count tree.old) (T.fault_count tree.old) (T.fault_count tree.new) (cause_of error)) }
    ensures later { S.fault_count err.old ≤ S.fault_count err.new }
{
    let found = metadata_of(alloc, tree, err, catalog, log_ctx, context, words, files)?;
    chosen_of(alloc, words, found)
}

/// What `why` finds of a request, all of which is carried. What is printed of the policy's load is written to the sink.
fn found_why<T: Tree, S: Sink, C: Catalog, I: Identifier>(
    alloc: Global,
    tree: &mut T,
    err: &mut S,
    catalog: &C,
    identifier: &I,
    log_ctx: LogContext,
    context: &KrateContext,
    words: &Texts,
) -> Result<WhyFound, Error>
    requires { unsupported_of log_ctx context.now words.now ≡ None }
    ensures finds { FindsWhy
        (why_arguments_of (C.lists catalog.now) (I.match_of identifier.now) log_ctx context.now words.now)
        (seen_between T.content T.fault_count T.trace tree.old tree.new)
        (sink_between S.written S.fault_count err.old err.new)
        result }
    ensures counts { IfErr result (λ error. ReadCounts
        (T.fault_count tree.old) (T.fault_count tree.old) (T.fault_count tree.new) (cause_of error)) }
    ensures later { S.fault_count err.old ≤ S.fault_count err.new }
{
    let mut files = Files::new(alloc);
    let asked = crates_asked(
        alloc, tree, err, catalog, log_ctx, context, words, &mut files,
    )?;
    let WhyCrates { crates, told } = asked;
    let judged = judged_of(
        alloc, log_ctx, true, crates, files, tree, catalog, identifier,
    )?;
    let texts = texts_told(alloc, log_ctx.format, has_any(words), &told, &judged)?;
    Ok(WhyFound {
        report: judged.report,
        texts,
    })
}

/// Texts, one after another.
fn joined(alloc: Global, texts: &[Text]) -> Result<String, AllocError>
    ensures { IfOk result (λ text. string_bytes text ≡ joined_texts texts.now) }
{
    let mut joined = String::new(alloc);
    'texts: for text in texts {
        joined.push_str(text.as_str())?;
    }
    Ok(joined)
}

/// Writes the texts, once nothing can be refused any more but that, and reports the reads of the crates.
fn put_why<O: Sink>(alloc: Global, out: &mut O, found: WhyFound) -> Result<CrateReads, Error>
    ensures puts { Puts found (sink_between O.written O.fault_count out.old out.new) result }
    ensures later { O.fault_count out.old ≤ O.fault_count out.new }
{
    let WhyFound { report, texts } = found;
    let reads = report.into_reads(alloc)?;
    let text = joined(alloc, texts.items())?;
    write_answer(out, text.as_str().as_bytes())?;
    Ok(reads)
}

/// The command `why` of a request, all of which is carried: what the verdicts on crates rest on is written to `out`, or
/// why they are not checked. With words these crates are told that the words name, checked or not, each once, else those
/// that are rejected or have no licence; in the order of ids. A word that names no crate is refused once the crates are
/// chosen, and before a file of one is read. What is printed of the policy's load is written to `err`; no finding of the
/// check is.
pub fn why_since<T: Tree, O: Sink, S: Sink, C: Catalog, I: Identifier>(
    alloc: Global,
    tree: &mut T,
    out: &mut O,
    err: &mut S,
    catalog: &C,
    identifier: &I,
    log_ctx: LogContext,
    context: &KrateContext,
    words: &Texts,
) -> Result<CrateReads, Error>
    requires { unsupported_of log_ctx context.now words.now ≡ None }
    // What is told is by the report that a check of this request, without options, has by what was read. A refusal comes
    // before the command does its own, or it is that of a word, or of the write.
    ensures tells { Tells
        (why_arguments_of (C.lists catalog.now) (I.match_of identifier.now) log_ctx context.now words.now)
        (seen_between T.content T.fault_count T.trace tree.old tree.new)
        (sink_between S.written S.fault_count err.old err.new)
        (sink_between O.written O.fault_count out.old out.new)
        result }
    ensures counts { IfErr result (λ error. ReadCounts
        (T.fault_count tree.old) (T.fault_count tree.old) (T.fault_count tree.new) (cause_of error)) }
    ensures out { O.fault_count out.old ≤ O.fault_count out.new }
    ensures err { S.fault_count err.old ≤ S.fault_count err.new }
{
    let found = found_why(
        alloc, tree, err, catalog, identifier, log_ctx, context, words,
    )?;
    put_why(alloc, out, found)
}
