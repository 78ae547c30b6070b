//! The check of all crates.
//! Called by `judge_and_report` of `run_check`; more room than the largest expression needs may be taken.
ghost use Rattle.std.specs.Prelude.{◌≡◌, ◌+◌, ◌<◌, ◌≤◌, [], ◌∷◌, All, Bool, IfOk, OnOk, OnErr, List};
ghost use Rattle.std.specs.Prelude.{map};
ghost use Rattle.spdx_core.specs.declared.certificates.verdict.Hit.{Hit};
ghost use Rattle.diag_core.specs.Overrides.{pack_overridden};
ghost use Rattle.policy_core.specs.valid.View.{policy_of};
ghost use Rattle.check_core.specs.evaluate.Entries.{entry_families};
ghost use Rattle.check_core.specs.evaluate.Private.{private_numbers};
ghost use Rattle.check_core.specs.unused.Flags.{flags_by};
ghost use Rattle.check_core.specs.unused.Laws.{EntriesLie};
ghost use Rattle.check_core.specs.unused.Unused as unused;
ghost use Rattle.gather_core.specs.Premises.{IsPlacedAt};
ghost use Rattle.check_core.specs.Check.{AreVerdicts, HasFront, all_hits, findings_of, sink_with_packs, packs_of};
ghost use Rattle.check_core.specs.Labels.{GainLies, PackLies, VerdictPoints};
ghost use Rattle.check_core.specs.Reports.{reports_of, verdicts_of};
ghost use Rattle.check_core.specs.Steps.{ArePassedOver, entries_of_all};
ghost use Rattle.check_core.specs.Summary as spec;
ghost use Rattle.check_core.specs.Summary.{InfoFits, IsExpressionIn, gathered_of_licenses};

use crate::crate_check::Checker;
use crate::report::CrateReports;
use deny_text::Steps;
use diag_core::{ErrorSink, Files, LevelFilter};
use gather_core::{KrateLicense, KrateLicenses, LicenseInfo, Summary};
use graph_core::selection::Krates;
use policy_core::valid::{CountedPolicy, ValidConfig};
use std::alloc::{AllocError, Global};
use std::marker::Brand;
use std::sync::ledger::{Blank, Ledger};

/// What a check is made with.
#[derive(Drop)]
pub struct CheckCtx<'c, T> {
    /// The part of the policy that the check reads.
    pub cfg: T,
    pub krates: &'c Krates,
    /// The level from which on findings are written. What is found does not depend on it.
    pub log_level: LevelFilter,
    /// The files that findings point into.
    pub files: &'c Files,
}

/// The nodes of an expression; none where there is no expression.
fn nodes_in(info: &LicenseInfo) -> usize
    ensures nodes { result ≡ spec.nodes_in info.now }
    ensures facts { IsExpressionIn info.now }
{
    match info {
        LicenseInfo::SpdxExpression { expr, .. } => expr.nodes().len(),
        LicenseInfo::Unlicensed => 0,
    }
}

/// The larger of two numbers.
fn larger(one: usize, other: usize) -> usize
    ensures one { one ≤ result }
    ensures other { other ≤ result }
{
    if one < other { other } else { one }
}

/// The nodes of the largest expression.
fn most_nodes(licenses: &[KrateLicense<'_>]) -> usize
    ensures most { All (λ license. spec.nodes_in license.lic_info ≤ result) licenses.now }
    ensures facts { All (λ license. IsExpressionIn license.lic_info) licenses.now }
{
    let mut most = 0;
    'licenses: for license in licenses {
        most = larger(most, nodes_in(&license.lic_info));
    }
    most
}

/// The reports on crates, one after another.
#[tactic(auto, using(crate::proofs::CheckLemmas::has_front, crate::proofs::CheckLemmas::nothing_gained))]
fn judge_in_order<L: Ledger>(
    alloc: Global,
    policy: &CountedPolicy<'_, L>,
    checker: &mut Checker,
    licenses: KrateLicenses<'_>,
    sink: &mut ErrorSink,
    steps: &mut Steps<L>,
) -> Result<CrateReports, AllocError>
    requires room { All (λ license. spec.nodes_in license.lic_info ≤ checker.old.nodes) licenses }
    requires families { entry_families (policy_of policy.now) ≡ checker.old.families }
    requires private { private_numbers (policy_of policy.now) ≡ checker.old.private }
    requires flags { checker.old.flags ≡ flags_by policy.now [] }
    requires fits { All (λ license. InfoFits license.lic_info) licenses }
    ensures verdicts { IfOk result (λ reports.
        AreVerdicts (policy_of policy.now) (gathered_of_licenses licenses.entry) (verdicts_of reports)) }
    ensures reports { IfOk result (λ reports. reports ≡ reports_of licenses.entry (verdicts_of reports)) }
    ensures packs { IfOk result (λ reports.
        sink.new ≡ sink_with_packs sink.old
        (packs_of (policy_of policy.now) (gathered_of_licenses licenses.entry) (verdicts_of reports))) }
    ensures flags { IfOk result (λ reports. checker.new.flags ≡ flags_by policy.now
        (all_hits (policy_of policy.now) (gathered_of_licenses licenses.entry) (verdicts_of reports))) }
    ensures front { OnErr result (HasFront (policy_of policy.now) licenses.entry sink.old sink.new) }
    ensures steps { steps.old ≤ steps.new }
    ensures bound { let asked = gathered_of_licenses licenses.entry in
        (passed : List Bool) → ArePassedOver (policy_of policy.now) asked passed
        → steps.new ≤ steps.old + entries_of_all (policy_of policy.now) asked passed }
{
    let mut reports = CrateReports::new(alloc);
    'licenses: for license in licenses.into_vec() {
        let judged = checker.judge(alloc, policy, license, steps)?;
        reports.push(judged.report)?;
        sink.push(judged.pack)?;
    }
    Ok(reports)
}

/// Tells the policy's entries that allowed no term so far.
fn tell_unused<L: Ledger>(
    alloc: Global,
    policy: &CountedPolicy<'_, L>,
    checker: &Checker,
    sink: &mut ErrorSink,
) -> Result<(), AllocError>
    ensures ok { (hits : List Hit) → checker.now.flags ≡ flags_by policy.now hits
        → OnOk result (sink.new ≡ sink_with_packs sink.old (unused.last_pack policy.now hits ∷ [])) }
    ensures err { OnErr result (sink.new ≡ sink.old) }
{
    let last = checker.finish(alloc, policy)?;
    sink.push(last)
}

/// The reports on crates whose expressions have so many nodes at most, and what is reported of the policy
/// after them.
#[tactic(auto, using(crate::proofs::CheckLemmas::no_front, crate::proofs::CheckLemmas::whole_front, crate::proofs::CheckLemmas::gained_then))]
fn judge_with_room<L: Ledger>(
    alloc: Global,
    policy: &CountedPolicy<'_, L>,
    licenses: KrateLicenses<'_>,
    nodes: usize,
    sink: &mut ErrorSink,
    steps: &mut Steps<L>,
) -> Result<CrateReports, AllocError>
    requires room { All (λ license. spec.nodes_in license.lic_info ≤ nodes) licenses }
    requires fits { All (λ license. InfoFits license.lic_info) licenses }
    ensures verdicts { IfOk result (λ reports.
        AreVerdicts (policy_of policy.now) (gathered_of_licenses licenses.entry) (verdicts_of reports)) }
    ensures reports { IfOk result (λ reports. reports ≡ reports_of licenses.entry (verdicts_of reports)) }
    ensures packs { IfOk result (λ reports.
        sink.new ≡ sink_with_packs sink.old
        (findings_of policy.now (gathered_of_licenses licenses.entry) (verdicts_of reports))) }
    ensures front { OnErr result (HasFront (policy_of policy.now) licenses.entry sink.old sink.new) }
    ensures steps { steps.old ≤ steps.new }
    ensures bound { let asked = gathered_of_licenses licenses.entry in
        (passed : List Bool) → ArePassedOver (policy_of policy.now) asked passed
        → steps.new ≤ steps.old + entries_of_all (policy_of policy.now) asked passed }
{
    let mut checker = Checker::with_room(alloc, nodes, policy)?;
    let reports = judge_in_order(alloc, policy, &mut checker, licenses, sink, steps)?;
    tell_unused(alloc, policy, &checker, sink)?;
    Ok(reports)
}

/// The reports on the crates of a summary, in order. What is found goes into the sink: a pack of each crate, in
/// order, and then always one of the policy's entries that allow no term, which may be empty. Where memory is
/// refused the sink has the packs of some first crates. A step is counted for each entry that is asked for a term:
/// those of the term's family, in each exception that counts for the crate and in what is allowed, at most once
/// each.
#[tactic(auto, using(crate::proofs::LabelLemmas::all_fit))]
pub fn check<L: Ledger>(
    alloc: Global,
    ctx: &CheckCtx<'_, CountedPolicy<'_, L>>,
    summary: Summary<'_>,
    sink: &mut ErrorSink,
    steps: &mut Steps<L>,
) -> Result<CrateReports, AllocError>
    requires placed { All (IsPlacedAt ctx.now.files.now) summary.nfos }
    ensures verdicts { IfOk result (λ reports.
        AreVerdicts (policy_of ctx.now.cfg) (gathered_of_licenses summary.entry.nfos) (verdicts_of reports)) }
    ensures reports { IfOk result (λ reports. reports ≡ reports_of summary.entry.nfos (verdicts_of reports)) }
    ensures packs { IfOk result (λ reports.
        sink.new ≡ sink_with_packs sink.old
        (findings_of ctx.now.cfg (gathered_of_licenses summary.entry.nfos) (verdicts_of reports))) }
    ensures front { OnErr result (HasFront (policy_of ctx.now.cfg) summary.entry.nfos sink.old sink.new) }
    // where the policy's entries have places of their files, each label does
    ensures labels { EntriesLie ctx.now.files.now ctx.now.cfg → GainLies ctx.now.files.now sink.old sink.new }
    ensures terms { All (VerdictPoints ctx.now.files.now (policy_of ctx.now.cfg)) (gathered_of_licenses summary.entry.nfos) }
    ensures steps { steps.old ≤ steps.new }
    ensures bound { let asked = gathered_of_licenses summary.entry.nfos in
        (passed : List Bool) → ArePassedOver (policy_of ctx.now.cfg) asked passed
        → steps.new ≤ steps.old + entries_of_all (policy_of ctx.now.cfg) asked passed }
{
    let nodes = most_nodes(summary.nfos.items());
    judge_with_room(alloc, &ctx.cfg, summary.nfos, nodes, sink, steps)
}

/// The same, into a sink that holds no packs yet, with its steps counted in a ledger that is handed in.
fn judge_by_ledger<L: Ledger>(
    ledger: Blank,
    alloc: Global,
    ctx: &CheckCtx<'_, ValidConfig>,
    summary: Summary<'_>,
    sink: &mut ErrorSink,
) -> Result<CrateReports, AllocError>
    requires name { ledger.name ≡ L.name }
    requires parts { ledger.parts ≡ L.parts }
    requires some { 0 < ledger.parts }
    requires placed { All (IsPlacedAt ctx.now.files.now) summary.nfos }
    requires entries { EntriesLie ctx.now.files.now ctx.now.cfg }
    requires empty { sink.old.packs ≡ [] }
    ensures verdicts { IfOk result (λ reports.
        AreVerdicts (policy_of ctx.now.cfg) (gathered_of_licenses summary.entry.nfos) (verdicts_of reports)) }
    ensures reports { IfOk result (λ reports. reports ≡ reports_of summary.entry.nfos (verdicts_of reports)) }
    // each at the levels that the sink's overrides say
    ensures packs { IfOk result (λ reports. sink.new.packs ≡ map (pack_overridden sink.old.overrides)
        (findings_of ctx.now.cfg (gathered_of_licenses summary.entry.nfos) (verdicts_of reports))) }
    ensures front { OnErr result (HasFront (policy_of ctx.now.cfg) summary.entry.nfos sink.old sink.new) }
    ensures terms { All (VerdictPoints ctx.now.files.now (policy_of ctx.now.cfg)) (gathered_of_licenses summary.entry.nfos) }
    ensures labels { OnOk result (All (PackLies ctx.now.files.now) sink.new.packs) }
{
    let mut steps = Steps::<L>::new(ledger);
    let counted = CheckCtx {
        cfg: CountedPolicy::<L>::of(&ctx.cfg),
        krates: ctx.krates,
        log_level: ctx.log_level,
        files: ctx.files,
    };
    check(alloc, &counted, summary, sink, &mut steps)
}

/// The reports on the crates of a summary, as `check` gives them, with its steps counted in a ledger of its own,
/// and a sink that holds no packs yet. Where memory is wanted the sink has the packs of some first crates.
pub fn judge_all(
    alloc: Global,
    ctx: &CheckCtx<'_, ValidConfig>,
    summary: Summary<'_>,
    sink: &mut ErrorSink,
) -> Result<CrateReports, AllocError>
    requires placed { All (IsPlacedAt ctx.now.files.now) summary.nfos }
    requires entries { EntriesLie ctx.now.files.now ctx.now.cfg }
    requires empty { sink.old.packs ≡ [] }
    ensures verdicts { IfOk result (λ reports.
        AreVerdicts (policy_of ctx.now.cfg) (gathered_of_licenses summary.entry.nfos) (verdicts_of reports)) }
    ensures reports { IfOk result (λ reports. reports ≡ reports_of summary.entry.nfos (verdicts_of reports)) }
    // each at the levels that the sink's overrides say
    ensures packs { IfOk result (λ reports. sink.new.packs ≡ map (pack_overridden sink.old.overrides)
        (findings_of ctx.now.cfg (gathered_of_licenses summary.entry.nfos) (verdicts_of reports))) }
    ensures front { OnErr result (HasFront (policy_of ctx.now.cfg) summary.entry.nfos sink.old sink.new) }
    ensures terms { All (VerdictPoints ctx.now.files.now (policy_of ctx.now.cfg)) (gathered_of_licenses summary.entry.nfos) }
    ensures labels { OnOk result (All (PackLies ctx.now.files.now) sink.new.packs) }
{
    judge_by_ledger::<Brand>(Blank::new(1), alloc, ctx, summary, sink)
}
