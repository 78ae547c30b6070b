//! The check of one crate.
//! Called by `judge_with_room` of `check`; a checker's three parts may be made in any order.
ghost use Rattle.std.specs.Prelude.{◌≡◌, ◌↔◌, ◌+◌, ◌≤◌, ◌++◌, ◌∷◌, ◌⊎◌, [], Bool, IsTrue, List, IfOk, OnErr, length};
ghost use Rattle.std.specs.Prelude.{false};
ghost use Rattle.spdx_core.specs.Reading.{postfix};
ghost use Rattle.spdx_core.specs.declared.certificates.verdict.Hit.{Hit};
ghost use Rattle.gather_core.specs.Gathered.{krate_of};
ghost use Rattle.policy_core.specs.valid.Policy.{IsPrivate};
ghost use Rattle.policy_core.specs.valid.View.{policy_of};
ghost use Rattle.check_core.specs.evaluate.Entries.{entries_of_terms, entry_families};
ghost use Rattle.check_core.specs.evaluate.Private.{private_numbers};
ghost use Rattle.check_core.specs.unused.Flags.{flags_by};
ghost use Rattle.check_core.specs.unused.Unused as unused;
ghost use Rattle.check_core.specs.findings.Findings as findings;
ghost use Rattle.check_core.specs.findings.Places.{PlaceFits};
ghost use Rattle.check_core.specs.Reports.{report_of};
ghost use Rattle.check_core.specs.Steps.{entries_for, entries_of_info};
ghost use Rattle.check_core.specs.Summary.{InfoFits, gathered_of_license, nodes_in};
ghost use Rattle.check_core.specs.Turns.{expression_of, hits_by, hits_of, pack_by, verdict_finding};
ghost use Rattle.check_core.specs.Verdicts.{IsCertifiedOrUnlicensed, IsCertified, IsVerdict, is_skipped};

use crate::evaluate::{Evaluator, PrivateIndex, Verdict};
use crate::findings::{judged, pack_of, skipped, unlicensed};
use crate::report::{CrateReport, report_on};
use crate::unused::{EntryHits, last_pack};
use deny_text::Steps;
use diag_core::{Diag, Pack};
use gather_core::{Diags, KrateLicense, LicenseExprInfo, LicenseInfo};
use policy_core::valid::CountedPolicy;
use spdx_core::Expression;
use std::alloc::{AllocError, Global};
use std::marker::Model;
use std::sync::ledger::Ledger;

/// What the check of a crate comes to: the report on it, and its findings.
#[derive(Drop)]
pub struct JudgedCrate {
    pub report: CrateReport,
    pub pack: Pack,
}

/// A verdict, and the finding that tells it.
#[derive(Drop)]
pub(crate) struct ToldVerdict {
    verdict: Verdict,
    told: Diag,
}

/// Checks crates one after another under a policy. It has taken the memory that their expressions want when it
/// was made, and keeps which entries of the policy allowed a term so far.
#[derive(Drop)]
pub struct Checker {
    private: PrivateIndex,
    evaluator: Evaluator,
    encountered: EntryHits,
}

impl Model for Checker {
    ghost use Rattle.check_core.specs.Turns.{CheckerState};

    ghost Value = { CheckerState };

    ghost view = { λ c. record {
      nodes = c.evaluator.nodes;
      families = c.evaluator.families;
      private = c.private;
      flags = c.encountered;
    } };
}

/// A crate that the policy passes over: nothing of what was gathered is reported.
fn skip(alloc: Global, license: KrateLicense<'_>) -> Result<JudgedCrate, AllocError>
    ensures report { IfOk result (λ judged. judged.report ≡ report_of license.entry Verdict.Skipped) }
    ensures pack { let krate = krate_of license.entry in
        IfOk result (λ judged. judged.pack ≡ findings.pack_of krate (findings.skipped_finding krate ∷ [])) }
{
    let told = skipped(alloc, license.krate)?;
    let pack = pack_of(alloc, license.krate, Diags::new(alloc), told)?;
    let (report, _) = report_on(alloc, license, Verdict::Skipped)?;
    Ok(JudgedCrate { report, pack })
}

/// A crate that is not passed over, with the verdict on it: what was gathered moves into its findings.
fn tell(
    alloc: Global,
    license: KrateLicense<'_>,
    verdict: Verdict,
    told: Diag,
) -> Result<JudgedCrate, AllocError>
    ensures report { IfOk result (λ judged. judged.report ≡ report_of license.entry verdict) }
    ensures pack { IfOk result (λ judged.
        judged.pack ≡ findings.pack_of (krate_of license.entry) (license.entry.diags ++ told ∷ [])) }
{
    let krate = license.krate;
    let (report, gathered) = report_on(alloc, license, verdict)?;
    let pack = pack_of(alloc, krate, gathered, told)?;
    Ok(JudgedCrate { report, pack })
}

/// A crate without an expression.
fn tell_unlicensed(alloc: Global, license: &KrateLicense<'_>) -> Result<ToldVerdict, AllocError>
    ensures verdict { IfOk result (λ answer. answer.verdict ≡ Verdict.Unlicensed) }
    ensures told { IfOk result (λ answer.
        answer.told ≡ findings.unlicensed_finding (krate_of license.now) license.now.notes) }
{
    let told = unlicensed(alloc, license.krate, license.notes.items())?;
    Ok(ToldVerdict {
        verdict: Verdict::Unlicensed,
        told,
    })
}

impl Checker {
    /// A checker with room for so many nodes of an expression, made for a policy. Nothing was encountered yet.
    pub fn with_room<L: Ledger>(
        alloc: Global,
        nodes: usize,
        policy: &CountedPolicy<'_, L>,
    ) -> Result<Checker, AllocError>
        ensures { IfOk result (λ checker. checker ≡ record {
          nodes = nodes;
          families = entry_families (policy_of policy.now);
          private = private_numbers (policy_of policy.now);
          flags = flags_by policy.now [];
        }) }
    {
        let private = PrivateIndex::of(alloc, policy)?;
        let evaluator = Evaluator::with_room(alloc, nodes, policy)?;
        let encountered = EntryHits::of(alloc, policy)?;
        Ok(Checker {
            private,
            evaluator,
            encountered,
        })
    }

    /// A crate that is not passed over and has an expression: whether that is accepted, with what shows it.
    fn certify<L: Ledger>(
        &mut self,
        alloc: Global,
        policy: &CountedPolicy<'_, L>,
        license: &KrateLicense<'_>,
        expr: &Expression,
        nfo: &LicenseExprInfo,
        steps: &mut Steps<L>,
    ) -> Result<ToldVerdict, AllocError>
        requires room { length (postfix expr.now.tree) ≤ self.old.nodes }
        requires families { entry_families (policy_of policy.now) ≡ self.old.families }
        requires fits { PlaceFits nfo.now (length expr.now.text) }
        ensures nodes { self.new.nodes ≡ self.old.nodes }
        ensures families { self.new.families ≡ self.old.families }
        ensures private { self.new.private ≡ self.old.private }
        ensures verdict { let counted = license.now.exceptions in
            IfOk result (λ answer. IsCertified (policy_of policy.now) counted expr.now answer.verdict) }
        ensures told { let asked = gathered_of_license license.now in
            let info = LicenseInfo.SpdxExpression expr.now nfo.now in IfOk result (λ answer.
            answer.told ≡ verdict_finding (policy_of policy.now) asked.krate asked.exceptions info asked.notes) }
        ensures hits { let info = LicenseInfo.SpdxExpression expr.now nfo.now in
            (before : List Hit) → self.old.flags ≡ flags_by policy.now before
            → self.new.flags ≡ flags_by policy.now
            (before ++ hits_of (policy_of policy.now) license.now.exceptions info) }
        ensures steps { steps.old ≤ steps.new }
        ensures bound { let counted = license.now.exceptions in
            steps.new ≤ steps.old + entries_of_terms (policy_of policy.now) counted expr.now.terms }
    {
        let accepted = self
            .evaluator
            .evaluate(expr, &license.exceptions, policy, steps);
        self.encountered.mark_all(self.evaluator.hits());
        let verdict = self.evaluator.certificate(alloc, expr)?;
        let hits = self.evaluator.hits();
        let told = judged(alloc, accepted, expr, nfo, hits, license.notes.items())?;
        Ok(ToldVerdict { verdict, told })
    }

    /// The verdict on a crate that is not passed over.
    fn answer<L: Ledger>(
        &mut self,
        alloc: Global,
        policy: &CountedPolicy<'_, L>,
        license: &KrateLicense<'_>,
        steps: &mut Steps<L>,
    ) -> Result<ToldVerdict, AllocError>
        requires room { nodes_in license.now.lic_info ≤ self.old.nodes }
        requires families { entry_families (policy_of policy.now) ≡ self.old.families }
        requires fits { InfoFits license.now.lic_info }
        ensures nodes { self.new.nodes ≡ self.old.nodes }
        ensures families { self.new.families ≡ self.old.families }
        ensures private { self.new.private ≡ self.old.private }
        ensures verdict { let asked = gathered_of_license license.now in IfOk result (λ answer.
            IsCertifiedOrUnlicensed (policy_of policy.now) asked.exceptions (expression_of asked.info) answer.verdict) }
        ensures told { let asked = gathered_of_license license.now in IfOk result (λ answer.
            answer.told
            ≡ verdict_finding (policy_of policy.now) asked.krate asked.exceptions asked.info asked.notes) }
        ensures hits { (before : List Hit) → self.old.flags ≡ flags_by policy.now before
            → self.new.flags ≡ flags_by policy.now
            (before ++ hits_by false (policy_of policy.now) (gathered_of_license license.now)) }
        ensures steps { steps.old ≤ steps.new }
        ensures bound { let asked = gathered_of_license license.now in
            steps.new ≤ steps.old + entries_of_info (policy_of policy.now) asked.exceptions asked.info }
    {
        match &license.lic_info {
            LicenseInfo::SpdxExpression { expr, nfo } => {
                self.certify(alloc, policy, license, expr, nfo, steps)
            }
            LicenseInfo::Unlicensed => tell_unlicensed(alloc, license),
        }
    }

    /// A crate that is not passed over.
    fn ask<L: Ledger>(
        &mut self,
        alloc: Global,
        policy: &CountedPolicy<'_, L>,
        license: KrateLicense<'_>,
        steps: &mut Steps<L>,
    ) -> Result<JudgedCrate, AllocError>
        requires room { nodes_in license.lic_info ≤ self.old.nodes }
        requires families { entry_families (policy_of policy.now) ≡ self.old.families }
        requires fits { InfoFits license.lic_info }
        ensures nodes { self.new.nodes ≡ self.old.nodes }
        ensures families { self.new.families ≡ self.old.families }
        ensures private { self.new.private ≡ self.old.private }
        ensures verdict { let asked = gathered_of_license license.entry in IfOk result (λ judged.
            IsCertifiedOrUnlicensed (policy_of policy.now) asked.exceptions (expression_of asked.info)
            judged.report.verdict) }
        ensures report { IfOk result (λ judged. judged.report ≡ report_of license.entry judged.report.verdict) }
        ensures pack { IfOk result (λ judged.
            judged.pack ≡ pack_by false (policy_of policy.now) (gathered_of_license license.entry)) }
        ensures hits { (before : List Hit) → self.old.flags ≡ flags_by policy.now before
            → self.new.flags ≡ flags_by policy.now
            (before ++ hits_by false (policy_of policy.now) (gathered_of_license license.entry)) }
        ensures steps { steps.old ≤ steps.new }
        ensures bound { let asked = gathered_of_license license.entry in
            steps.new ≤ steps.old + entries_of_info (policy_of policy.now) asked.exceptions asked.info }
    {
        let answer = self.answer(alloc, policy, &license, steps)?;
        tell(alloc, license, answer.verdict, answer.told)
    }

    /// The check of one crate: the report on it with its verdict, and its findings. A crate that the policy passes
    /// over is skipped, also where it has no expression; what it has hits no entry. It takes a step for each entry
    /// that is asked. Where memory is wanted no hit is marked, or those of the crate's terms are.
    pub fn judge<L: Ledger>(
        &mut self,
        alloc: Global,
        policy: &CountedPolicy<'_, L>,
        license: KrateLicense<'_>,
        steps: &mut Steps<L>,
    ) -> Result<JudgedCrate, AllocError>
        requires room { nodes_in license.lic_info ≤ self.old.nodes }
        requires families { entry_families (policy_of policy.now) ≡ self.old.families }
        requires private { private_numbers (policy_of policy.now) ≡ self.old.private }
        requires fits { InfoFits license.lic_info }
        ensures nodes { self.new.nodes ≡ self.old.nodes }
        ensures families { self.new.families ≡ self.old.families }
        ensures private { self.new.private ≡ self.old.private }
        ensures verdict { let asked = gathered_of_license license.entry in IfOk result (λ judged.
            IsVerdict (policy_of policy.now) asked.krate asked.exceptions (expression_of asked.info)
            judged.report.verdict) }
        ensures report { IfOk result (λ judged. judged.report ≡ report_of license.entry judged.report.verdict) }
        ensures pack { let asked = gathered_of_license license.entry in IfOk result (λ judged.
            judged.pack ≡ pack_by (is_skipped judged.report.verdict) (policy_of policy.now) asked) }
        ensures hits { (before : List Hit) → self.old.flags ≡ flags_by policy.now before
            → IfOk result (λ judged. self.new.flags ≡ flags_by policy.now (before
            ++ hits_by (is_skipped judged.report.verdict) (policy_of policy.now) (gathered_of_license license.entry))) }
        ensures marks { (before : List Hit) → self.old.flags ≡ flags_by policy.now before
            → OnErr result ((self.new.flags ≡ self.old.flags) ⊎ (self.new.flags ≡ flags_by policy.now
            (before ++ hits_by false (policy_of policy.now) (gathered_of_license license.entry)))) }
        ensures steps { steps.old ≤ steps.new }
        ensures bound { let asked = gathered_of_license license.entry in
            (private : Bool) → IsTrue private ↔ IsPrivate (policy_of policy.now) asked.krate
            → steps.new ≤ steps.old + entries_for private (policy_of policy.now) asked }
    {
        if self.private.is_private(policy, license.krate) {
            return skip(alloc, license);
        }
        self.ask(alloc, policy, license, steps)
    }

    /// What is reported after all crates: the entries of the policy that were no hit. It may be empty.
    pub fn finish<L: Ledger>(
        &self,
        alloc: Global,
        policy: &CountedPolicy<'_, L>,
    ) -> Result<Pack, AllocError>
        ensures { (hits : List Hit) → self.now.flags ≡ flags_by policy.now hits
            → IfOk result (λ pack. pack ≡ unused.last_pack policy.now hits) }
    {
        last_pack(alloc, policy, &self.encountered)
    }
}
