//! Where a request's policy and exceptions file are.
//! Called by `policy_paths` of run_found and by refusal_help; each look is in a clause, the `match` is free.
ghost use Rattle.std.specs.Prelude.{◌≤◌, IfErr, IfOk};
ghost use Rattle.tree_core.specs.Hearing.{MadeSome};
ghost use Rattle.tree_core.specs.texts.Cause.{ReadCounts};
ghost use Rattle.tree_core.specs.texts.Search.{search_cause};
ghost use Rattle.run_context.specs.Paths.{IsConfigPath, IsExceptionsPath};
ghost use Rattle.run_context.specs.Paths.{ConfigPathUntil, ExceptionsPathUntil};

use deny_text::PathBuf;
use deny_text::path::join;
use run_request::KrateContext;
use std::alloc::Global;
use tree_core::Tree;
use tree_core::texts::{SearchError, SoughtFile, find_upwards};

/// The policy's path: the one that is given, joined to the folder of the call, at which nothing is looked
/// for; else the one that is found. `begun` is the tree's count of faults when the run began.
pub fn config_path_since<T: Tree>(
    context: &KrateContext,
    alloc: Global,
    tree: &mut T,
    begun: u64,
) -> Result<Option<PathBuf>, SearchError>
    requires { begun ≤ T.fault_count tree.old }
    ensures looked { IfOk result (IsConfigPath context.now (T.trace tree.old) (T.trace tree.new)) }
    ensures given_up { IfErr result (ConfigPathUntil context.now (T.trace tree.old) (T.trace tree.new)) }
    ensures made { MadeSome (T.content tree.old) (T.content tree.new) (T.fault_count tree.old)
        (T.fault_count tree.new) (T.trace tree.old) (T.trace tree.new) }
    ensures counts { IfErr result (λ error.
        ReadCounts begun (T.fault_count tree.old) (T.fault_count tree.new) (search_cause error)) }
{
    match &context.config_path {
        Some(path) => Ok(Some(join(alloc, context.cwd.as_path(), path.as_path())?)),
        None => find_upwards(
            alloc,
            tree,
            context.manifest_path.as_path(),
            SoughtFile::Policy,
            begun,
        ),
    }
}

/// The policy's path, as `config_path_since` has it from the start of this call on.
pub fn get_config_path<T: Tree>(
    context: &KrateContext,
    alloc: Global,
    tree: &mut T,
) -> Result<Option<PathBuf>, SearchError>
    ensures looked { IfOk result (IsConfigPath context.now (T.trace tree.old) (T.trace tree.new)) }
    ensures given_up { IfErr result (ConfigPathUntil context.now (T.trace tree.old) (T.trace tree.new)) }
    ensures made { MadeSome (T.content tree.old) (T.content tree.new) (T.fault_count tree.old)
        (T.fault_count tree.new) (T.trace tree.old) (T.trace tree.new) }
    ensures counts { IfErr result (λ error. ReadCounts (T.fault_count tree.old)
        (T.fault_count tree.old) (T.fault_count tree.new) (search_cause error)) }
{
    let begun = tree.faults();
    config_path_since(context, alloc, tree, begun)
}

/// The exceptions file's path, which is always looked for. `begun` is the tree's count of faults when the run
/// began.
pub fn exceptions_path_since<T: Tree>(
    context: &KrateContext,
    alloc: Global,
    tree: &mut T,
    begun: u64,
) -> Result<Option<PathBuf>, SearchError>
    requires { begun ≤ T.fault_count tree.old }
    ensures looked { IfOk result (IsExceptionsPath context.now (T.trace tree.old) (T.trace tree.new)) }
    ensures given_up { IfErr result (ExceptionsPathUntil context.now (T.trace tree.old) (T.trace tree.new)) }
    ensures made { MadeSome (T.content tree.old) (T.content tree.new) (T.fault_count tree.old)
        (T.fault_count tree.new) (T.trace tree.old) (T.trace tree.new) }
    ensures counts { IfErr result (λ error.
        ReadCounts begun (T.fault_count tree.old) (T.fault_count tree.new) (search_cause error)) }
{
    find_upwards(
        alloc,
        tree,
        context.manifest_path.as_path(),
        SoughtFile::Exceptions,
        begun,
    )
}

/// The exceptions file's path, as `exceptions_path_since` has it from the start of this call on.
pub fn get_local_exceptions_path<T: Tree>(
    context: &KrateContext,
    alloc: Global,
    tree: &mut T,
) -> Result<Option<PathBuf>, SearchError>
    ensures looked { IfOk result (IsExceptionsPath context.now (T.trace tree.old) (T.trace tree.new)) }
    ensures given_up { IfErr result (ExceptionsPathUntil context.now (T.trace tree.old) (T.trace tree.new)) }
    ensures made { MadeSome (T.content tree.old) (T.content tree.new) (T.fault_count tree.old)
        (T.fault_count tree.new) (T.trace tree.old) (T.trace tree.new) }
    ensures counts { IfErr result (λ error. ReadCounts (T.fault_count tree.old)
        (T.fault_count tree.old) (T.fault_count tree.new) (search_cause error)) }
{
    let begun = tree.faults();
    exceptions_path_since(context, alloc, tree, begun)
}
