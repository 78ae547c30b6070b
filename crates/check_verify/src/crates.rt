//! What is wrong with a crate's recorded verdict.
//! Called by `first_reason` of `verifying`; either test may run first, the fault that is named is in a clause.
ghost use Rattle.std.specs.Prelude.{◌≡◌, ◌+◌, ◌≤◌, IfOk, None, Some, length, map, sum_by};
ghost use Rattle.policy_core.specs.valid.View.{policy_of};
ghost use Rattle.gather_core.specs.findings.License.{expression_of};
ghost use Rattle.check_verify.specs.Crates as spec;
ghost use Rattle.check_core.specs.evaluate.Entries.{entry_families};
ghost use Rattle.check_verify.specs.Terms.{entries_at};
ghost use Rattle.check_verify.specs.Verified.{steps_for};

use crate::answer::VerdictFault;
use crate::certificates::{is_choice, meet_each};
use crate::entries::{any_has_hit, are_allowed};
use check_core::evaluate::EntryIndex;
use check_record::RecordVerdict;
use deny_text::Steps;
use gather_core::LicenseInfo;
use policy_core::valid::CountedPolicy;
use policy_parts::spec::Places;
use spdx_core::Expression;
use spdx_core::certificates::Hit;
use std::alloc::{AllocError, Global};
use std::sync::ledger::Ledger;

/// The exceptions that count for a crate, and where the entries of each licence family are in the policy.
#[derive(Clone, Copy)]
pub struct CrateInPolicy<'k> {
    pub counted: &'k Places,
    pub index: &'k EntryIndex,
}

/// What is wrong with a choice and its hits.
fn choice_fault<L: Ledger>(
    alloc: Global,
    policy: &CountedPolicy<'_, L>,
    asked: &CrateInPolicy<'_>,
    expr: &Expression,
    choice: &[usize],
    hits: &[Hit],
    steps: &mut Steps<L>,
) -> Result<Option<VerdictFault>, AllocError>
    requires families { entry_families (policy_of policy.now) ≡ asked.now.index.now }
    ensures fault { let counted = asked.now.counted.now in IfOk result (λ fault.
        fault ≡ spec.choice_fault (policy_of policy.now) counted expr.now choice.now hits.now) }
    ensures steps { steps.old ≤ steps.new }
    ensures bound { steps.new ≤ steps.old + length hits.now }
{
    if !is_choice(alloc, expr, choice)? {
        return Ok(Some(VerdictFault::NotAChoice));
    }
    let terms = expr.requirements();
    if are_allowed(policy, asked.counted, terms, choice, hits, steps) {
        Ok(None)
    } else {
        Ok(Some(VerdictFault::NotSatisfied))
    }
}

/// What is wrong with places that are to stand in the way.
fn blocks_fault<L: Ledger>(
    alloc: Global,
    policy: &CountedPolicy<'_, L>,
    asked: &CrateInPolicy<'_>,
    expr: &Expression,
    blocks: &[usize],
    steps: &mut Steps<L>,
) -> Result<Option<VerdictFault>, AllocError>
    requires families { entry_families (policy_of policy.now) ≡ asked.now.index.now }
    ensures fault { let counted = asked.now.counted.now in IfOk result (λ fault.
        fault ≡ spec.blocks_fault (policy_of policy.now) counted expr.now blocks.now) }
    ensures steps { steps.old ≤ steps.new }
    ensures bound { steps.new
        ≤ steps.old + sum_by (entries_at (policy_of policy.now) asked.now.counted.now expr.now.terms) blocks.now }
{
    if any_has_hit(
        policy,
        asked.index,
        asked.counted,
        expr.requirements(),
        blocks,
        steps,
    ) {
        return Ok(Some(VerdictFault::HasHit));
    }
    if meet_each(alloc, expr, blocks)? {
        Ok(None)
    } else {
        Ok(Some(VerdictFault::NotBlocking))
    }
}

/// What is wrong with a verdict on an expression.
fn certificate_fault<L: Ledger>(
    alloc: Global,
    policy: &CountedPolicy<'_, L>,
    asked: &CrateInPolicy<'_>,
    expr: &Expression,
    verdict: &RecordVerdict,
    steps: &mut Steps<L>,
) -> Result<Option<VerdictFault>, AllocError>
    requires families { entry_families (policy_of policy.now) ≡ asked.now.index.now }
    ensures fault { let counted = asked.now.counted.now in IfOk result (λ fault.
        fault ≡ spec.certificate_fault (policy_of policy.now) counted expr.now verdict.now) }
    ensures steps { steps.old ≤ steps.new }
    ensures bound { steps.new
        ≤ steps.old + steps_for (policy_of policy.now) asked.now.counted.now (Some expr.now) verdict.now }
{
    match verdict {
        RecordVerdict::Accepted { choice, hits } => {
            choice_fault(
                alloc,
                policy,
                asked,
                expr,
                choice.items(),
                hits.items(),
                steps,
            )
        }
        RecordVerdict::Rejected { blocks } => {
            blocks_fault(alloc, policy, asked, expr, blocks.items(), steps)
        }
        RecordVerdict::Skipped | RecordVerdict::Unlicensed => Ok(Some(VerdictFault::Variant)),
    }
}

/// What is wrong with the verdict on a crate that the policy passes over.
fn skipped_fault(verdict: &RecordVerdict) -> Option<VerdictFault>
    ensures { result ≡ spec.skipped_fault verdict.now }
{
    match verdict {
        RecordVerdict::Skipped => None,
        _ => Some(VerdictFault::Variant),
    }
}

/// What is wrong with the verdict on a crate without an expression.
fn unlicensed_fault(verdict: &RecordVerdict) -> Option<VerdictFault>
    ensures { result ≡ spec.unlicensed_fault verdict.now }
{
    match verdict {
        RecordVerdict::Unlicensed => None,
        _ => Some(VerdictFault::Variant),
    }
}

/// What is wrong with the verdict on a crate that is not passed over.
fn asked_fault<L: Ledger>(
    alloc: Global,
    policy: &CountedPolicy<'_, L>,
    asked: &CrateInPolicy<'_>,
    info: &LicenseInfo,
    verdict: &RecordVerdict,
    steps: &mut Steps<L>,
) -> Result<Option<VerdictFault>, AllocError>
    requires families { entry_families (policy_of policy.now) ≡ asked.now.index.now }
    ensures fault { let counted = asked.now.counted.now in IfOk result (λ fault.
        fault ≡ spec.asked_fault (policy_of policy.now) counted (expression_of info.now) verdict.now) }
    ensures steps { steps.old ≤ steps.new }
    ensures bound { steps.new
        ≤ steps.old + steps_for (policy_of policy.now) asked.now.counted.now (expression_of info.now)
        verdict.now }
{
    match info {
        LicenseInfo::SpdxExpression { expr, .. } => {
            certificate_fault(alloc, policy, asked, expr, verdict, steps)
        }
        LicenseInfo::Unlicensed => Ok(unlicensed_fault(verdict)),
    }
}

/// What is wrong with a crate's verdict, where it is known whether the policy passes the crate over.
pub fn fault_of<L: Ledger>(
    alloc: Global,
    policy: &CountedPolicy<'_, L>,
    asked: &CrateInPolicy<'_>,
    private: bool,
    info: &LicenseInfo,
    verdict: &RecordVerdict,
    steps: &mut Steps<L>,
) -> Result<Option<VerdictFault>, AllocError>
    requires families { entry_families (policy_of policy.now) ≡ asked.now.index.now }
    ensures fault { let counted = asked.now.counted.now in IfOk result (λ fault.
        fault ≡ spec.fault_by private (policy_of policy.now) counted (expression_of info.now) verdict.now) }
    ensures steps { steps.old ≤ steps.new }
    ensures bound { steps.new
        ≤ steps.old + steps_for (policy_of policy.now) asked.now.counted.now (expression_of info.now)
        verdict.now }
{
    if private {
        Ok(skipped_fault(verdict))
    } else {
        asked_fault(alloc, policy, asked, info, verdict, steps)
    }
}
