//! Where the entries of each licence family are in a policy.
//! Called by `evaluator`, `hits` and `check_verify`; the two indexes may be made in either order.
ghost use Rattle.std.specs.Prelude.{◌≡◌, IfOk};
ghost use Rattle.spdx_terms.specs.families.Places.{places_in};
ghost use Rattle.policy_core.specs.valid.View.{policy_of};
ghost use Rattle.check_core.specs.evaluate.Entries.{entry_families, families_at};

use policy_core::valid::CountedPolicy;
use spdx_terms::Family;
use spdx_terms::families::{FamilyIndex, FamilyIndexes};
use std::alloc::{AllocError, Global};
use std::marker::Model;
use std::sync::ledger::Ledger;

/// The places of each family among the allowed licensees of a policy, and among those of each exception.
#[derive(Drop)]
pub struct EntryIndex {
    allowed: FamilyIndex,
    granted: FamilyIndexes,
}

impl Model for EntryIndex {
    ghost use Rattle.check_core.specs.evaluate.Entries.{EntryFamilies};

    ghost Value = { EntryFamilies };

    ghost view = { λ index. record { allowed = index.allowed; granted = index.granted } };
}

impl EntryIndex {
    /// The index of a policy's entries.
    pub fn of<L: Ledger>(
        alloc: Global,
        policy: &CountedPolicy<'_, L>,
    ) -> Result<EntryIndex, AllocError>
        ensures { IfOk result (λ index. index ≡ entry_families (policy_of policy.now)) }
    {
        let allowed = policy.allowed_families(alloc)?;
        let granted = policy.granted_families(alloc)?;
        Ok(EntryIndex { allowed, granted })
    }

    /// The places of a family among the allowed licensees.
    pub fn allowed(&self, family: Family) -> &[usize]
        ensures { result.now ≡ places_in family self.now.allowed }
    {
        self.allowed.places(family)
    }

    /// The places of a family among the licensees of an exception.
    pub fn granted(&self, exception: usize, family: Family) -> &[usize]
        ensures { result.now ≡ places_in family (families_at self.now.granted exception) }
    {
        match self.granted.items().get(exception) {
            Some(index) => index.places(family),
            None => &[],
        }
    }
}
