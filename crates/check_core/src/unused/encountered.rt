//! Which entries of a policy are hits.
//! Called by `crate_check` and read by `unused`; hits may be marked in any order, a flag is never unset.
ghost use Rattle.std.specs.Prelude.{◌≡◌, ◌++◌, [], List, IfOk, slice_set, true};
ghost use Rattle.std.specs.List.{fold};
ghost use Rattle.spdx_core.specs.declared.certificates.verdict.Hit.{Hit};
ghost use Rattle.policy_core.specs.declared.valid.policy.ValidConfig.{ValidConfig};
ghost use Rattle.check_core.specs.unused.Flags.{Flags, flags_by, flags_with_hit, marked_by, no_flags};
ghost use Rattle.check_core.specs.unused.Unused.{hits_in};

use policy_core::valid::CountedPolicy;
use spdx_core::certificates::Hit;
use std::alloc::{AllocError, Global};
use std::marker::Model;
use std::sync::ledger::Ledger;

/// Which allowed licensees of a policy, and which exceptions, have allowed a term so far, by their places.
#[derive(Drop)]
pub struct EntryHits {
    allowed: Vec<bool>,
    exceptions: Vec<bool>,
}

impl Model for EntryHits {
    ghost use Rattle.check_core.specs.unused.Flags.{Flags};

    ghost Value = { Flags };

    ghost view = { λ e. record { allowed = e.allowed.items; exceptions = e.exceptions.items } };
}

/// So many flags, none of which is set.
fn unset(alloc: Global, count: usize) -> Result<Vec<bool>, AllocError>
    ensures { IfOk result (λ flags. flags.items ≡ no_flags count) }
{
    let flags = vec![in alloc; false; count]?;
    Ok(flags)
}

/// Sets the flag of a place, where there is one.
fn set(flags: &mut Vec<bool>, place: usize)
    ensures { flags.new.items ≡ slice_set flags.old.items place true }
{
    if place < flags.len() {
        flags[place] = true;
    }
}

impl EntryHits {
    /// Nothing so far, of the entries of a policy.
    pub fn of<L: Ledger>(
        alloc: Global,
        policy: &CountedPolicy<'_, L>,
    ) -> Result<EntryHits, AllocError>
        ensures { IfOk result (λ e. e ≡ flags_by policy.now []) }
    {
        let allowed = unset(alloc, policy.allowed_count())?;
        let exceptions = unset(alloc, policy.exception_count())?;
        Ok(EntryHits {
            allowed,
            exceptions,
        })
    }

    fn mark(&mut self, hit: Hit)
        ensures { self.new ≡ flags_with_hit self.old hit }
    {
        match hit {
            Hit::Allowed(entry) => set(&mut self.allowed, entry),
            Hit::Exception { exception, .. } => set(&mut self.exceptions, exception),
        }
    }

    fn mark_some(&mut self, hit: Option<Hit>)
        ensures { self.new ≡ marked_by self.old hit }
    {
        if let Some(hit) = hit {
            self.mark(hit);
        }
    }

    /// Marks each hit of a list as encountered, in one walk.
    fn mark_each(&mut self, hits: &[Option<Hit>])
        ensures { self.new ≡ fold marked_by self.old hits.now }
    {
        'hits: for hit in hits {
            self.mark_some(*hit);
        }
    }

    /// Marks what allows the terms of one more expression: a hit or none of each. It takes no memory.
    pub fn mark_all(&mut self, hits: &[Option<Hit>])
        ensures { (policy : ValidConfig) (before : List Hit) → self.old ≡ flags_by policy before
            → self.new ≡ flags_by policy (before ++ hits_in hits.now) }
    {
        self.mark_each(hits);
    }

    /// Whether the allowed licensee at a place is a hit.
    pub(crate) fn allowed(&self) -> &[bool]
        ensures { result.now ≡ self.now.allowed }
    {
        &self.allowed
    }

    pub(crate) fn exceptions(&self) -> &[bool]
        ensures { result.now ≡ self.now.exceptions }
    {
        &self.exceptions
    }
}
