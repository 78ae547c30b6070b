//! Marks on the nodes of an expression, which say where walks go on.
ghost use Rattle.std.specs.Prelude.{◌≡◌, ◌<◌, ◌^◌, false, OnOk, IfOk};
ghost use Rattle.spdx_core.specs.certificates.Certificates.{hit_at as hit_of, has_hit};
ghost use Rattle.spdx_core.specs.certificates.Machine.{marked_of, marked_after, marks_after, no_marks, total};

use crate::ExprNode;
use crate::certificates::stack::{put, take_off};
use crate::certificates::verdict::Hit;
use std::alloc::{AllocError, Global};

/// A node with what a walk from the last node to the first has to know of it.
#[derive(Clone, Copy)]
pub enum NodeMark {
    Term(usize),
    /// The right side is marked where the left one is accepted, and else the left one.
    And { right: bool },
    /// The right side is marked where it has a choice with fewer terms without a hit than the left one.
    Or { right: bool },
}

/// Marks of nodes, and of each tree that waits for its operator the fewest terms without a hit that a choice
/// of it has, the last tree last.
#[derive(Drop)]
pub struct Marking {
    pub counts: Vec<usize>,
    pub marks: Vec<NodeMark>,
}

/// The hit of a place; a list that is too short has none for it.
pub fn hit_at(kept: &[Option<Hit>], place: usize) -> Option<Hit>
    ensures { result ≡ hit_of kept.now place }
{
    match kept.get(place) {
        Some(hit) => *hit,
        None => None,
    }
}

impl Marking {
    fn mark_term(&mut self, place: usize, kept: &[Option<Hit>]) -> Result<(), AllocError>
        ensures { OnOk result (marked_of self.new
            ≡ marked_after (has_hit kept.now) (marked_of self.old) (ExprNode.Term place)) }
    {
        let count = if hit_at(kept, place).is_some() { 0 } else { 1 };
        put(&mut self.counts, count)?;
        put(&mut self.marks, NodeMark::Term(place))
    }

    fn mark_and(&mut self) -> Result<(), AllocError>
        requires { total (marked_of self.old).counts < 2 ^ 64 }
        ensures { OnOk result (marked_of self.new
            ≡ marked_after (λ _. false) (marked_of self.old) ExprNode.And) }
    {
        let right = take_off(&mut self.counts, 0);
        let left = take_off(&mut self.counts, 0);
        put(&mut self.counts, left + right)?;
        put(&mut self.marks, NodeMark::And { right: left == 0 })
    }

    fn mark_or(&mut self) -> Result<(), AllocError>
        ensures { OnOk result (marked_of self.new
            ≡ marked_after (λ _. false) (marked_of self.old) ExprNode.Or) }
    {
        let right = take_off(&mut self.counts, 0);
        let left = take_off(&mut self.counts, 0);
        let is_less = right < left;
        put(&mut self.counts, if is_less { right } else { left })?;
        put(&mut self.marks, NodeMark::Or { right: is_less })
    }

    fn mark(&mut self, node: ExprNode, kept: &[Option<Hit>]) -> Result<(), AllocError>
        requires { total (marked_of self.old).counts < 2 ^ 64 }
        ensures { OnOk result (marked_of self.new
            ≡ marked_after (has_hit kept.now) (marked_of self.old) node) }
    {
        match node {
            ExprNode::Term(place) => self.mark_term(place, kept),
            ExprNode::And => self.mark_and(),
            ExprNode::Or => self.mark_or(),
        }
    }
}

/// The marks of all nodes, and the fewest terms without a hit that a choice has.
pub fn mark_nodes(
    alloc: Global,
    nodes: &[ExprNode],
    kept: &[Option<Hit>],
) -> Result<Marking, AllocError>
    ensures { IfOk result (λ marking. marked_of marking ≡ marks_after (has_hit kept.now) no_marks nodes.now) }
{
    let mut marking = Marking {
        counts: Vec::new(alloc),
        marks: Vec::with_capacity(alloc, nodes.len())?,
    };
    'nodes: for node in nodes {
        marking.mark(*node, kept)?;
    }
    Ok(marking)
}
