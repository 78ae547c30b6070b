//! The licences of the crates that a request looks at.
//! Called by `run_list`, `run_check` and `run_record`; the gatherer may be set up in any order before `gather`.
ghost use Rattle.std.specs.Prelude.{◌≤◌, All, IfOk, OnErr};
ghost use Rattle.graph_core.specs.Metadata.{Graph};
ghost use Rattle.graph_core.specs.selection.Choice.{Choice};
ghost use Rattle.graph_core.specs.selection.Listed.{IsChosen};
ghost use Rattle.diag_core.specs.File.{Grows};
ghost use Rattle.policy_core.specs.Places.{PolicyStands};
ghost use Rattle.gather_core.specs.Premises.{IsPlacedAt};
ghost use Rattle.check_core.specs.unused.Laws.{EntriesLie};
ghost use Rattle.run_found.specs.Licenses.{IsGatherCut, IsGatheredOn, scanner_of_policy};
ghost use Rattle.run_found.specs.Hearing.{seen_between};

use diag_core::Files;
use gather_core::{Gatherer, Summary};
use graph_workspace::Krates;
use policy_core::valid::ValidConfig;
use spdx_core::{Catalog, Identifier};
use std::alloc::{AllocError, Global};
use tree_core::Tree;

/// The licences of the crates that a policy has checked, in the order of their ids. The manifests in which their
/// fields have places join the files, also where memory is wanted; files that are known stay. `keeps` says whether it
/// is kept what each licence file is.
pub fn licenses_found<'k, T: Tree, C: Catalog, I: Identifier>(
    alloc: Global,
    keeps: bool,
    policy: &ValidConfig,
    krates: &'k Krates,
    files: &mut Files,
    tree: &mut T,
    catalog: &C,
    identifier: &I,
) -> Result<Summary<'k>, AllocError>
    requires { PolicyStands files.old policy.now }
    // of each graph and choice that the crates are of
    ensures gathered { IfOk result (λ summary. (graph : Graph) (choice : Choice)
        → IsChosen graph choice krates.entry.now
        → IsGatheredOn (scanner_of_policy keeps (C.lists catalog.now) (I.match_of identifier.now) policy.now) policy.now
        (seen_between T.content T.fault_count T.trace tree.old tree.new)
        files.old files.new graph choice summary.nfos) }
    ensures cut { OnErr result ((graph : Graph) (choice : Choice) → IsChosen graph choice krates.entry.now
        → IsGatherCut (scanner_of_policy keeps (C.lists catalog.now) (I.match_of identifier.now) policy.now) policy.now
        (seen_between T.content T.fault_count T.trace tree.old tree.new)
        files.old graph choice) }
    ensures grows { Grows files.old files.new }
    // what a check of the summary asks of the files
    ensures placed { IfOk result (λ summary. All (IsPlacedAt files.new) summary.nfos) }
    ensures entries { EntriesLie files.new policy.now }
    ensures later { T.fault_count tree.old ≤ T.fault_count tree.new }
{
    let gatherer: Gatherer<'_, I> = Gatherer::default();
    let gatherer = gatherer
        .with_store(identifier)
        .with_confidence_threshold(policy.confidence_threshold)
        .keeping_files(keeps);
    let summary = gatherer.gather(alloc, krates, files, policy, tree, catalog)?;
    Ok(summary)
}
