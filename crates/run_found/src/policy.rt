//! The policy of a request.
//! Called by `crates_found` of `run_command`; variants may be in any order, that of the looks is in a clause.
ghost use Rattle.std.specs.Prelude.{◌≡◌, ◌≢◌, ◌≤◌, [], IfErr, IfOk};
ghost use Rattle.tree_core.specs.texts.Cause.{ReadCounts};
ghost use Rattle.tree_core.specs.texts.Search.{search_cause};
ghost use Rattle.tree_core.specs.declared.texts.fault.ReadFault.{ReadFault};
ghost use Rattle.policy_core.specs.Places.{PolicyStands};
ghost use Rattle.policy_load.specs.Answer.{WriteCounts};
ghost use Rattle.run_found.specs.declared.error.Error.{Error};
ghost use Rattle.run_found.specs.Error.{cause_of, error_of_policy};
ghost use Rattle.run_found.specs.Finds.{FindsPolicy};
ghost use Rattle.run_found.specs.Given.{request_arguments_of};
ghost use Rattle.run_found.specs.Paths.{ArePathsAt, PathsUntil};
ghost use Rattle.run_found.specs.Hearing.{seen_between, HasMade};

use diag_core::Files;
use diag_print::LogContext;
use policy_load::{LoadError, LoadedPolicy, PolicyPaths, load};
use run_context::{config_path_since, exceptions_path_since};
use run_request::KrateContext;
use spdx_core::Catalog;
use std::alloc::{AllocError, Global};
use tree_core::texts::SearchError;
use tree_core::{Sink, Tree};

/// Why no policy was found.
#[derive(Drop)]
pub enum PolicyRefusal {
    Memory,
    Search(SearchError),
    Load(LoadError),
}

impl From<AllocError> for PolicyRefusal {
    ghost use Rattle.run_found.specs.declared.policy.PolicyRefusal.TheVariants.{Memory};

    ghost from_gives = { λ _ refusal. refusal ≡ Memory };

    fn from(_: AllocError) -> PolicyRefusal {
        PolicyRefusal::Memory
    }
}

impl From<SearchError> for PolicyRefusal {
    ghost use Rattle.run_found.specs.declared.policy.PolicyRefusal.TheVariants.{Search};

    ghost from_gives = { λ refused refusal. refusal ≡ Search refused };

    fn from(refused: SearchError) -> PolicyRefusal {
        PolicyRefusal::Search(refused)
    }
}

impl From<LoadError> for PolicyRefusal {
    ghost use Rattle.run_found.specs.declared.policy.PolicyRefusal.TheVariants.{Load};

    ghost from_gives = { λ refused refusal. refusal ≡ Load refused };

    fn from(refused: LoadError) -> PolicyRefusal {
        PolicyRefusal::Load(refused)
    }
}

/// Where the two files of a request's policy are. `begun` is the tree's count of faults when the run began.
fn policy_paths<T: Tree>(
    alloc: Global,
    tree: &mut T,
    context: &KrateContext,
    begun: u64,
) -> Result<PolicyPaths, SearchError>
    requires { begun ≤ T.fault_count tree.old }
    ensures paths { IfOk result (ArePathsAt context.now (T.trace tree.old) (T.trace tree.new)) }
    ensures given_up { IfErr result (PathsUntil context.now (T.trace tree.old) (T.trace tree.new)) }
    ensures made { HasMade (seen_between T.content T.fault_count T.trace tree.old tree.new) }
    ensures counts { IfErr result (λ error.
        ReadCounts begun (T.fault_count tree.old) (T.fault_count tree.new) (search_cause error)) }
{
    let policy = config_path_since(context, alloc, tree, begun)?;
    let exceptions = exceptions_path_since(context, alloc, tree, begun)?;
    Ok(PolicyPaths { policy, exceptions })
}

/// The policy of a request: its two files are looked for and loaded, and what is printed of the load is
/// printed. No file is known before it.
pub fn policy_found<T: Tree, S: Sink, C: Catalog>(
    alloc: Global,
    context: &KrateContext,
    log_ctx: LogContext,
    files: &mut Files,
    tree: &mut T,
    sink: &mut S,
    catalog: &C,
) -> Result<LoadedPolicy, PolicyRefusal>
    requires { files.old ≡ [] }
    // By what was read: the calls that were due were made, and no other; the policy or its refusal is what
    // they come to; and what is printed of the load was written.
    ensures found { FindsPolicy
        (request_arguments_of (C.lists catalog.now) log_ctx context.now)
        (seen_between T.content T.fault_count T.trace tree.old tree.new)
        (S.written sink.old) (S.written sink.new) (S.fault_count sink.old) (S.fault_count sink.new)
        files.new result }
    // Each place that the policy keeps lies in its file.
    ensures places { IfOk result (λ loaded. PolicyStands files.new loaded.licenses) }
    ensures there { IfErr result (λ refusal. error_of_policy refusal ≢ Error.ConfigRead ReadFault.Absent) }
    ensures made { HasMade (seen_between T.content T.fault_count T.trace tree.old tree.new) }
    ensures counts { IfErr result (λ refusal. ReadCounts (T.fault_count tree.old)
        (T.fault_count tree.old) (T.fault_count tree.new) (cause_of (error_of_policy refusal))) }
    ensures writes { IfErr result (λ refusal. WriteCounts
        (S.fault_count sink.old) (S.fault_count sink.new) (cause_of (error_of_policy refusal))) }
    ensures later { S.fault_count sink.old ≤ S.fault_count sink.new }
{
    let begun = tree.faults();
    let paths = policy_paths(alloc, tree, context, begun)?;
    let loaded = load(alloc, paths, files, log_ctx, tree, sink, catalog, begun)?;
    Ok(loaded)
}
