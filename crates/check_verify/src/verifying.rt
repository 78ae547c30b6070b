//! Verifying a record.
//! Called by `verify_by_ledger` of `run_record`; flags and indexes may be made late, ids come before faults.
ghost use Rattle.std.specs.Prelude.{◌≡◌, ◌+◌, ◌≤◌, IfOk, IsTrue, ◌↔◌, map};
ghost use Rattle.std.specs.List.{AllZip};
ghost use Rattle.std.specs.Cmp.Lexicographic.{pointwise};
ghost use Rattle.std.specs.Str.{bytes_eq};
ghost use Rattle.gather_core.specs.Gathered.{krate_of};
ghost use Rattle.policy_core.specs.valid.Policy.{IsPrivate};
ghost use Rattle.policy_core.specs.valid.View.{policy_of};
ghost use Rattle.check_core.specs.evaluate.Entries.{entry_families};
ghost use Rattle.check_record.specs.Items.{ids_of};
ghost use Rattle.check_verify.specs.Verified.{IsFirst, IsFlagged, IsVerified, all_steps, ids_gathered};

use crate::answer::{NoReason, VerifyAnswer, with_id};
use crate::crates::{CrateInPolicy, fault_of};
use check_core::evaluate::EntryIndex;
use check_record::{Record, RecordItem};
use deny_text::{Steps, Text};
use gather_core::{KrateLicense, Summary};
use policy_core::valid::CountedPolicy;
use std::alloc::{AllocError, Global};
use std::sync::ledger::Ledger;

/// Of each crate, whether the policy passes it over.
fn private_flags<L: Ledger>(
    alloc: Global,
    policy: &CountedPolicy<'_, L>,
    licenses: &[KrateLicense<'_>],
) -> Result<Vec<bool>, AllocError>
    ensures { IfOk result (λ flags. AllZip (IsFlagged (policy_of policy.now)) licenses.now flags.items) }
{
    let mut flags = Vec::new(alloc);
    'crates: for license in licenses {
        flags.push(policy.is_private(license.krate))?;
    }
    Ok(flags)
}

/// Whether the recorded ids are those of the crates.
fn same_ids(licenses: &[KrateLicense<'_>], items: &[RecordItem]) -> bool
    ensures { result ≡ pointwise bytes_eq (ids_gathered licenses.now) (ids_of items.now) }
{
    if licenses.len() != items.len() {
        return false;
    }
    let mut same = true;
    'crates: for place in 0..items.len() {
        let krate = licenses[place].krate;
        same = same & (krate.id.as_str() == items[place].id.as_str());
    }
    same
}

/// The first reason, crate after crate.
fn first_reason<L: Ledger>(
    alloc: Global,
    policy: &CountedPolicy<'_, L>,
    index: &EntryIndex,
    licenses: &[KrateLicense<'_>],
    flags: &[bool],
    items: &[RecordItem],
    steps: &mut Steps<L>,
) -> Result<Option<NoReason>, AllocError>
    requires families { entry_families (policy_of policy.now) ≡ index.now }
    requires flags { AllZip (IsFlagged (policy_of policy.now)) licenses.now flags.now }
    ensures reason { IfOk result (IsFirst (policy_of policy.now) licenses.now flags.now items.now) }
    ensures steps { steps.old ≤ steps.new }
    ensures bound { steps.new ≤ steps.old + all_steps (policy_of policy.now) licenses.now items.now }
{
    'crates: for place in 0..licenses.len() {
        let Some(item) = items.get(place) else {
            return Ok(None);
        };
        let license = &licenses[place];
        let asked = CrateInPolicy {
            counted: &license.exceptions,
            index,
        };
        let private = flags[place];
        let fault = fault_of(
            alloc,
            policy,
            &asked,
            private,
            &license.lic_info,
            &item.verdict,
            steps,
        )?;
        if let Some(fault) = fault {
            let id = Text::copy(alloc, license.krate.id.as_str())?;
            return Ok(Some(with_id(id, fault)));
        }
    }
    Ok(None)
}

/// Whether a record is right about crates under a policy: their ids, and each verdict by what shows it. No
/// verdict is made anew. It takes a step for each recorded hit at most, and for each recorded place of a
/// rejected crate as many as there are entries for its term.
pub fn verify<L: Ledger>(
    alloc: Global,
    verdict_file: &Record,
    summary: &Summary<'_>,
    policy: &CountedPolicy<'_, L>,
    steps: &mut Steps<L>,
) -> Result<VerifyAnswer, AllocError>
    ensures answer { IfOk result
        (IsVerified (policy_of policy.now) summary.now.nfos verdict_file.now) }
    ensures steps { steps.old ≤ steps.new }
    ensures bound { steps.new
        ≤ steps.old + all_steps (policy_of policy.now) summary.now.nfos verdict_file.now }
{
    let licenses = summary.nfos.items();
    let items = verdict_file.items();
    let flags = private_flags(alloc, policy, licenses)?;
    if !same_ids(licenses, items) {
        return Ok(VerifyAnswer::No(NoReason::Crates));
    }
    let index = EntryIndex::of(alloc, policy)?;
    let flags = flags.as_slice();
    match first_reason(alloc, policy, &index, licenses, flags, items, steps)? {
        Some(reason) => Ok(VerifyAnswer::No(reason)),
        None => Ok(VerifyAnswer::Yes),
    }
}
