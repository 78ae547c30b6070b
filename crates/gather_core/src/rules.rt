//! What gathering takes of a policy.
ghost use Rattle.std.specs.Prelude.{◌≡◌, map, IfOk};
ghost use Rattle.graph_core.specs.Krate.{record_of};
ghost use Rattle.gather_license.specs.Clarification.{lent_clarification};
ghost use Rattle.gather_core.specs.Entries.{clarifications_of};
ghost use Rattle.gather_core.specs.Rules.{rules_of};

use crate::clarifications::{ClarificationIndex, ClarificationRefs};
use crate::exceptions::ExceptionIndex;
use graph_core::Krate;
use policy_core::valid::ValidConfig;
use std::alloc::{AllocError, Global};
use std::marker::Model;

/// The clarifications and the exceptions of a policy, found by the names of crates.
#[derive(Drop)]
pub(crate) struct RuleIndex<'p> {
    clarifications: ClarificationIndex<'p>,
    exceptions: ExceptionIndex<'p>,
}

impl<'p> Model for RuleIndex<'p> {
    ghost use Rattle.std.specs.Coded.{codes};
    ghost use Rattle.gather_license.specs.Clarification.{clarification_code};
    ghost use Rattle.gather_core.specs.Rules.{GatherRules};

    ghost Value = { GatherRules };

    ghost coded = { Prim.hlevel (codes, clarification_code) };

    ghost view = { λ r. record { clarifications = r.clarifications; exceptions = r.exceptions } };
}

impl<'p> RuleIndex<'p> {
    /// Those of a policy.
    pub(crate) fn of(alloc: Global, policy: &'p ValidConfig) -> Result<RuleIndex<'p>, AllocError>
        ensures { IfOk result (λ rules. rules ≡ rules_of policy.entry.now) }
    {
        let clarifications = ClarificationIndex::of(alloc, policy.clarifications.items())?;
        let exceptions = ExceptionIndex::of(alloc, policy)?;
        Ok(RuleIndex {
            clarifications,
            exceptions,
        })
    }

    /// The clarifications that are for a crate, in order.
    pub(crate) fn matching<'a>(
        &'a self,
        alloc: Global,
        krate: &Krate,
    ) -> Result<ClarificationRefs<'a, 'p>, AllocError>
        ensures { IfOk result (λ found.
            map lent_clarification found.items ≡ clarifications_of (record_of krate.now) self.entry.now.clarifications) }
    {
        self.clarifications.matching(alloc, krate)
    }

    /// The exceptions.
    pub(crate) fn exceptions(&self) -> &ExceptionIndex<'p>
        ensures { result.now ≡ self.now.exceptions }
    {
        &self.exceptions
    }
}
