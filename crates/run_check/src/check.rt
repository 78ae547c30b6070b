//! The licences of all crates, and the check of them.
//! Called by `judged_since` of `command`; the level in `CheckCtx` may be any, no clause names it.
ghost use Rattle.std.specs.Prelude.{◌≡◌, All, IfOk, OnErr};
ghost use Rattle.graph_core.specs.Metadata.{Graph};
ghost use Rattle.graph_core.specs.selection.Choice.{Choice};
ghost use Rattle.graph_core.specs.selection.Listed.{IsChosen};
ghost use Rattle.policy_core.specs.valid.View.{policy_of};
ghost use Rattle.policy_core.specs.Places.{PolicyStands};
ghost use Rattle.gather_core.specs.Premises.{IsPlacedAt};
ghost use Rattle.check_core.specs.unused.Laws.{EntriesLie};
ghost use Rattle.check_core.specs.Labels.{PackLies, VerdictPoints};
ghost use Rattle.check_core.specs.Summary.{gathered_of_licenses};
ghost use Rattle.run_request.specs.declared.level.LintLevels.{LintLevels};
ghost use Rattle.run_overrides.specs.Levels.{PutAtLevels};
ghost use Rattle.run_found.specs.Licenses.{IsGatherCut, scanner_of_policy};
ghost use Rattle.run_check.specs.Steps.{IsCheckOf, IsCheckedOn};
ghost use Rattle.run_found.specs.Hearing.{seen_between};

use check_core::{CheckCtx, CrateReports, judge_all};
use diag_core::{DiagnosticOverrides, ErrorSink, Files, LevelFilter, Packs};
use gather_core::Summary;
use graph_workspace::Krates;
use policy_core::valid::ValidConfig;
use run_found::licenses_found;
use spdx_core::{Catalog, Identifier};
use std::alloc::{AllocError, Global};
use tree_core::Tree;

/// What a check of all crates comes to, and the policy that it was made by.
#[derive(Drop)]
pub(crate) struct CheckedCrates {
    pub(crate) policy: ValidConfig,
    pub(crate) crates: CrateReports,
    pub(crate) findings: Packs,
}

/// The reports on the crates of a summary under a policy. Findings come out at the levels that the overrides say.
fn judge_and_report(
    alloc: Global,
    policy: ValidConfig,
    overrides: DiagnosticOverrides,
    krates: &Krates,
    files: &Files,
    summary: Summary<'_>,
) -> Result<CheckedCrates, AllocError>
    requires placed { All (IsPlacedAt files.now) summary.nfos }
    requires entries { EntriesLie files.now policy }
    // of any levels that the overrides put findings at
    ensures check { IfOk result (λ checked. (levels : LintLevels) → PutAtLevels levels overrides
        → IsCheckOf levels policy summary.entry.nfos checked) }
    ensures policy { IfOk result (λ checked. checked.policy ≡ policy) }
    ensures terms { IfOk result (λ _.
        All (VerdictPoints files.now (policy_of policy)) (gathered_of_licenses summary.entry.nfos)) }
    ensures labels { IfOk result (λ checked. All (PackLies files.now) checked.findings) }
{
    let ctx = CheckCtx {
        cfg: policy,
        krates,
        log_level: LevelFilter::Warn,
        files,
    };
    let mut sink = ErrorSink::new(alloc, Some(overrides));
    let crates = judge_all(alloc, &ctx, summary, &mut sink)?;
    Ok(CheckedCrates {
        policy: ctx.cfg,
        crates,
        findings: sink.packs,
    })
}

/// The check of the crates that a policy has checked, in the order of their ids, once the licence of each was
/// settled.
pub(crate) fn settle_and_judge<T: Tree, C: Catalog, I: Identifier>(
    alloc: Global,
    keeps: bool,
    policy: ValidConfig,
    overrides: DiagnosticOverrides,
    krates: &Krates,
    files: &mut Files,
    tree: &mut T,
    catalog: &C,
    identifier: &I,
) -> Result<CheckedCrates, AllocError>
    requires { PolicyStands files.old policy }
    // of each graph and choice that the crates are of, and of any levels that the overrides put findings at
    ensures checked { IfOk result (λ checked. (graph : Graph) (choice : Choice) (levels : LintLevels)
        → IsChosen graph choice krates.now → PutAtLevels levels overrides
        → IsCheckedOn (scanner_of_policy keeps (C.lists catalog.now) (I.match_of identifier.now) policy) levels policy
        (seen_between T.content T.fault_count T.trace tree.old tree.new)
        files.old files.new graph choice checked) }
    ensures cut { OnErr result ((graph : Graph) (choice : Choice) → IsChosen graph choice krates.now
        → IsGatherCut (scanner_of_policy keeps (C.lists catalog.now) (I.match_of identifier.now) policy) policy
        (seen_between T.content T.fault_count T.trace tree.old tree.new)
        files.old graph choice) }
    ensures labels { IfOk result (λ checked. All (PackLies files.new) checked.findings) }
    ensures stands { IfOk result (λ checked. PolicyStands files.new checked.policy) }
{
    let summary = licenses_found(
        alloc, keeps, &policy, krates, files, tree, catalog, identifier,
    )?;
    judge_and_report(alloc, policy, overrides, krates, files, summary)
}
