//! The policy of a command, and the crates that it looks at.
//! Called by `run_list`, `run_check` and `run_record`; the threshold may be put in once the policy is there.
ghost use Rattle.std.specs.Prelude.{◌≡◌, ◌≤◌, ℕ, List, [], IfErr, IfOk, None, Ok};
ghost use Rattle.tree_core.specs.Hearing.{MadeSome};
ghost use Rattle.tree_core.specs.texts.Cause.{ReadCounts};
ghost use Rattle.spdx_terms.specs.declared.catalog.identifier.Match.{Match};
ghost use Rattle.diag_core.specs.File.{File};
ghost use Rattle.graph_core.specs.selection.Choice.{choice_of};
ghost use Rattle.graph_workspace.specs.Krates.{AreOf, krates_cause};
ghost use Rattle.policy_core.specs.Places.{PolicyStands};
ghost use Rattle.run_context.specs.Asked.{IsMetadataBy, IsRefused, left_out, unsupported_part};
ghost use Rattle.run_overrides.specs.Levels.{PutAtLevels};
ghost use Rattle.run_found.specs.Error.{cause_of};
ghost use Rattle.run_found.specs.Hearing.{TreeSeen, seen_between};
ghost use Rattle.run_found.specs.Written.{SinkSeen, sink_between};
ghost use Rattle.run_command.specs.Crates.{FindsChosen, FindsCrates, FindsMetadata, HasMetadata, IsTold, options_of};
ghost use Rattle.run_command.specs.Found as spec;
ghost use Rattle.run_command.specs.Found.{left_by};
ghost use Rattle.run_command.specs.Given.{CommandArguments, command_arguments_of};

use diag_core::{DiagnosticOverrides, Files};
use diag_print::LogContext;
use graph_workspace::{Krates, KratesError};
use policy_core::valid::ValidConfig;
use policy_load::LoadedPolicy;
use policy_parts::GraphConfig;
use run_context::{AskedMetadata, LeftOut, gather_metadata_since};
use run_found::{Error, policy_found};
use run_overrides::overrides_of;
use run_request::{KrateContext, LintLevels};
use spdx_core::Catalog;
use std::alloc::Global;
use tree_core::{Sink, Tree};

/// How a command goes by its policy.
#[derive(Clone, Copy)]
pub struct PolicyUse<'l> {
    /// The codes and levels that are asked for.
    pub levels: &'l LintLevels,
    /// Whether the flags of the policy's graph leave crates out, beside its specs.
    pub with_flags: bool,
    /// The least score at which a text is taken for a licence, in hundredths, where it is not the policy's.
    pub threshold: Option<i64>,
    /// Whether it is kept what each licence file is.
    pub keeps: bool,
}

/// The policy of a command, its lists in order; the overrides that are asked for; and the crates that the command
/// looks at.
#[derive(Drop)]
pub struct CratesFound {
    pub policy: ValidConfig,
    pub overrides: DiagnosticOverrides,
    pub krates: Krates,
}

/// The same, where the crates are still to be chosen from what the metadata tells.
#[derive(Drop)]
pub struct MetadataFound {
    pub policy: ValidConfig,
    pub overrides: DiagnosticOverrides,
    pub asked: AskedMetadata,
}

/// A policy, with the least score that a command asks for in the place of its own.
fn at_threshold(threshold: Option<i64>, policy: ValidConfig) -> ValidConfig
    ensures { result ≡ spec.at_threshold threshold policy }
{
    match threshold {
        None => policy,
        Some(threshold) => {
            let mut policy = policy;
            policy.confidence_threshold = threshold;
            policy
        }
    }
}

/// What a policy's graph leaves out, by its flags too or by its specs alone.
fn leaves(with_flags: bool, graph: &GraphConfig) -> LeftOut<'_>
    ensures { left_out result ≡ left_by with_flags graph.entry.now }
{
    LeftOut {
        exclude: &graph.exclude,
        exclude_dev: with_flags && graph.exclude_dev,
        exclude_unpublished: with_flags && graph.exclude_unpublished,
    }
}

/// What the metadata that a request names tells, with what the request and its policy select of it.
fn metadata_left<T: Tree>(
    alloc: Global,
    context: &KrateContext,
    with_flags: bool,
    graph: &GraphConfig,
    tree: &mut T,
    begun: u64,
) -> Result<AskedMetadata, KratesError>
    requires { begun ≤ T.fault_count tree.old }
    ensures refused { IsRefused context.now graph.now.exclude result }
    ensures read { IsMetadataBy context.now (left_by with_flags graph.now) begun
        (T.fault_count tree.new) (T.trace tree.old) (T.trace tree.new) result }
    ensures made { MadeSome (T.content tree.old) (T.content tree.new) (T.fault_count tree.old)
        (T.fault_count tree.new) (T.trace tree.old) (T.trace tree.new) }
    ensures counts { IfErr result (λ error. ReadCounts begun
        (T.fault_count tree.old) (T.fault_count tree.new) (krates_cause error)) }
{
    let leaves = leaves(with_flags, graph);
    gather_metadata_since(context, alloc, tree, &leaves, begun)
}

/// The policy of a command, and what the metadata tells, of a request all of which is carried: the policy's files are
/// looked for and loaded, what is printed of the load is written, no code and no level is there twice, and the metadata
/// is read. No file is known before.
pub fn metadata_found<T: Tree, S: Sink, C: Catalog>(
    alloc: Global,
    context: &KrateContext,
    log_ctx: LogContext,
    use_of: &PolicyUse<'_>,
    files: &mut Files,
    tree: &mut T,
    err: &mut S,
    catalog: &C,
) -> Result<MetadataFound, Error>
    requires empty { files.old ≡ [] }
    requires carried { unsupported_part context.now [] ≡ None }
    // whatever identifies texts
    ensures found { (match_of : List ℕ → Match) → FindsMetadata
        (command_arguments_of (C.lists catalog.now) match_of log_ctx context.now (options_of use_of.now))
        (seen_between T.content T.fault_count T.trace tree.old tree.new)
        (sink_between S.written S.fault_count err.old err.new)
        files.new result }
    // Each place that the policy keeps lies in its file.
    ensures places { IfOk result (λ found. PolicyStands files.new found.policy) }
    ensures overrides { IfOk result (λ found. PutAtLevels use_of.now.levels.now found.overrides) }
    ensures counts { IfErr result (λ error. ReadCounts
        (T.fault_count tree.old) (T.fault_count tree.old) (T.fault_count tree.new) (cause_of error)) }
    ensures later { S.fault_count err.old ≤ S.fault_count err.new }
{
    let begun = tree.faults();
    let loaded = policy_found(alloc, context, log_ctx, files, tree, err, catalog)?;
    let overrides = overrides_of(alloc, use_of.levels)?;
    let asked = metadata_left(
        alloc,
        context,
        use_of.with_flags,
        &loaded.graph,
        tree,
        begun,
    )?;
    let LoadedPolicy { licenses, .. } = loaded;
    Ok(MetadataFound {
        policy: at_threshold(use_of.threshold, licenses),
        overrides,
        asked,
    })
}

fn krates_of(alloc: Global, asked: AskedMetadata) -> Result<Krates, KratesError>
    ensures { AreOf (choice_of asked.selection) (Ok asked.metadata) result }
{
    let AskedMetadata {
        metadata,
        selection,
        ..
    } = asked;
    Ok(Krates::build(alloc, metadata, &selection)?)
}

/// The crates that are chosen from what the metadata tells, with the policy. It is refused where no root is left.
pub fn crates_of(alloc: Global, found: MetadataFound) -> Result<CratesFound, Error>
    ensures found { (given : CommandArguments) (tree : TreeSeen) (err : SinkSeen) (files : List File)
        → HasMetadata given tree err files found → FindsChosen given tree err files found result }
    ensures policy { IfOk result (λ crates. crates.policy ≡ found.policy) }
    ensures overrides { IfOk result (λ crates. crates.overrides ≡ found.overrides) }
    ensures told { IfErr result (λ error. IsTold (cause_of error)) }
{
    let MetadataFound {
        policy,
        overrides,
        asked,
    } = found;
    let krates = krates_of(alloc, asked)?;
    Ok(CratesFound {
        policy,
        overrides,
        krates,
    })
}

/// The policy of a command, and the crates that it looks at, of a request all of which is carried: the crates are chosen
/// from what `metadata_found` answers.
pub fn crates_found<T: Tree, S: Sink, C: Catalog>(
    alloc: Global,
    context: &KrateContext,
    log_ctx: LogContext,
    use_of: &PolicyUse<'_>,
    files: &mut Files,
    tree: &mut T,
    err: &mut S,
    catalog: &C,
) -> Result<CratesFound, Error>
    requires empty { files.old ≡ [] }
    requires carried { unsupported_part context.now [] ≡ None }
    // whatever identifies texts
    ensures found { (match_of : List ℕ → Match) → FindsCrates
        (command_arguments_of (C.lists catalog.now) match_of log_ctx context.now (options_of use_of.now))
        (seen_between T.content T.fault_count T.trace tree.old tree.new)
        (sink_between S.written S.fault_count err.old err.new)
        files.new result }
    // Each place that the policy keeps lies in its file.
    ensures places { IfOk result (λ found. PolicyStands files.new found.policy) }
    ensures overrides { IfOk result (λ found. PutAtLevels use_of.now.levels.now found.overrides) }
    ensures counts { IfErr result (λ error. ReadCounts
        (T.fault_count tree.old) (T.fault_count tree.old) (T.fault_count tree.new) (cause_of error)) }
    ensures later { S.fault_count err.old ≤ S.fault_count err.new }
{
    let found = metadata_found(alloc, context, log_ctx, use_of, files, tree, err, catalog)?;
    crates_of(alloc, found)
}
