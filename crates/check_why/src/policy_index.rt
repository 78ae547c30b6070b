//! What of a policy is found by an index.
ghost use Rattle.std.specs.Prelude.{IfOk};
ghost use Rattle.check_why.specs.Indexes.{IndexesPolicy};

use check_core::evaluate::EntryIndex;
use policy_core::valid::{CountedPolicy, ValidConfig};
use policy_parts::spec::SpecIndex;
use std::alloc::{AllocError, Global};
use std::marker::Brand;

/// Where the entries of each licence family are in a policy, and which of its clarifications and exceptions are for a
/// crate. It is the same for all crates.
#[derive(Drop)]
pub struct PolicyIndex {
    pub(crate) entries: EntryIndex,
    pub(crate) clarifications: SpecIndex,
    pub(crate) exceptions: SpecIndex,
}

impl PolicyIndex {
    /// The index of a policy.
    pub fn of(alloc: Global, policy: &ValidConfig) -> Result<PolicyIndex, AllocError>
        ensures { IfOk result (IndexesPolicy policy.now) }
    {
        let counted = CountedPolicy::<Brand>::of(policy);
        let entries = EntryIndex::of(alloc, &counted)?;
        let clarifications = SpecIndex::of(alloc, policy.clarifications.items())?;
        let exceptions = SpecIndex::of(alloc, policy.exceptions.items())?;
        Ok(PolicyIndex {
            entries,
            clarifications,
            exceptions,
        })
    }
}
