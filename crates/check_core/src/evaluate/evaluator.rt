//! Evaluators.
//! Called by `crate_check`; both lists may have more room than `nodes`, which the invariant bounds below.
ghost use Rattle.std.specs.Prelude.{◌≡◌, ◌+◌, ◌≤◌, [], map, length, IfOk};
ghost use Rattle.spdx_core.specs.Reading.{postfix};
ghost use Rattle.spdx_core.specs.certificates.Certificates.{CertificateAnswers};
ghost use Rattle.policy_core.specs.valid.View.{policy_of};
ghost use Rattle.check_core.specs.evaluate.Entries.{entries_of_terms, entry_families};
ghost use Rattle.check_core.specs.evaluate.Evaluation.{term_hits, is_allowed};

use crate::evaluate::answers::is_accepted;
use crate::evaluate::entry_index::EntryIndex;
use crate::evaluate::hits::keep_hits;
use deny_text::Steps;
use policy_core::valid::CountedPolicy;
use policy_parts::spec::Places;
use spdx_core::Expression;
use spdx_core::certificates::{Hit, Verdict};
use std::alloc::{AllocError, Global};
use std::marker::Model;
use std::sync::ledger::Ledger;

/// Evaluates expressions of crates under a policy. It has taken its memory when it was made, and keeps what
/// allowed each term of the last expression.
#[derive(Drop)]
pub struct Evaluator {
    nodes: usize,
    index: EntryIndex,
    kept: Vec<Option<Hit>>,
    answers: Vec<bool>,
}

impl Model for Evaluator {
    ghost use Rattle.std.specs.Prelude.{◌≤◌, vec_capacity};
    ghost use Rattle.check_core.specs.evaluate.Evaluation.{Evaluation};

    ghost Value = { Evaluation };

    ghost view = { λ e. record {
      nodes = e.nodes;
      families = e.index;
      hits = e.kept.items;
      hits_room = vec_capacity e.kept;
      answers_room = vec_capacity e.answers;
    } };

    ghost invariant = { λ e. (e.nodes ≤ vec_capacity e.kept) × (e.nodes ≤ vec_capacity e.answers) };
}

impl Evaluator {
    /// An evaluator with room for so many nodes of an expression, made for the entries of a policy.
    pub fn with_room<L: Ledger>(
        alloc: Global,
        nodes: usize,
        policy: &CountedPolicy<'_, L>,
    ) -> Result<Evaluator, AllocError>
        ensures { let policy = policy_of policy.now in IfOk result (λ e. e ≡ record {
          nodes = nodes;
          families = entry_families policy;
          hits = [];
          hits_room = e.hits_room;
          answers_room = e.answers_room;
        }) }
    {
        let index = EntryIndex::of(alloc, policy)?;
        let kept = Vec::with_capacity(alloc, nodes)?;
        let answers = Vec::with_capacity(alloc, nodes)?;
        Ok(Evaluator {
            nodes,
            index,
            kept,
            answers,
        })
    }

    /// Whether a policy allows a crate to have an expression, where the exceptions at some places count for the
    /// crate. It keeps what allows each term, also of those that no choice needs, and takes no memory. A step is
    /// counted for each licensee that is asked: of those exceptions and of those that are allowed, at most the
    /// ones of the term's family.
    pub fn evaluate<L: Ledger>(
        &mut self,
        expression: &Expression,
        exceptions: &Places,
        policy: &CountedPolicy<'_, L>,
        steps: &mut Steps<L>,
    ) -> bool
        requires room { length (postfix expression.now.tree) ≤ self.old.nodes }
        requires families { entry_families (policy_of policy.now) ≡ self.old.families }
        ensures answer { let policy = policy_of policy.now in
            result ≡ is_allowed policy exceptions.now expression.now.terms expression.now.tree }
        ensures evaluator { let policy = policy_of policy.now in
            self.new ≡ record self.old { hits = term_hits policy exceptions.now expression.now.terms } }
        ensures steps { steps.old ≤ steps.new }
        ensures bound { let policy = policy_of policy.now in
            steps.new ≤ steps.old + entries_of_terms policy exceptions.now expression.now.terms }
    {
        keep_hits(
            &mut self.kept,
            policy,
            &self.index,
            exceptions,
            expression.requirements(),
            steps,
        );
        is_accepted(&mut self.answers, expression.nodes(), self.kept.as_slice())
    }

    /// What was kept for the terms of the last expression, in text order: what allows each, or nothing.
    pub fn hits(&self) -> &[Option<Hit>]
        ensures { result.now ≡ self.now.hits }
    {
        self.kept.as_slice()
    }

    /// The verdict on an expression with what shows it, from what was kept for its terms.
    pub fn certificate(&self, alloc: Global, expression: &Expression) -> Result<Verdict, AllocError>
        ensures { CertificateAnswers self.now.hits expression.now.tree result }
    {
        spdx_core::certificates::certificate(alloc, expression, self.kept.as_slice())
    }
}
