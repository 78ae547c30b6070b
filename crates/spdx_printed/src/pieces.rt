//! The pieces of a printed expression, found from its last node to its first.
ghost use Rattle.std.specs.Prelude.{◌≡◌, ◌∷◌, IfOk, OnOk, reverse};
ghost use Rattle.spdx_core.specs.Stack.{Pops};
ghost use Rattle.spdx_printed.specs.Pieces as spec;
ghost use Rattle.spdx_printed.specs.Pieces.{after_operator, after_part, gone_over, nothing_printed, progress};
ghost use Rattle.spdx_printed.specs.Pieces.{progress_of, progress_after};

use spdx_core::ExprNode;
use std::alloc::{AllocError, Global};

/// A piece of a printed expression.
#[derive(Clone, Copy, Debug, PartialEq, Eq)]
pub(crate) enum Piece {
    /// The term at a place.
    Term(usize),
    And,
    Or,
    Open,
    Close,
}

/// What the grammar wants in a place. What it does not want there stands in parentheses.
#[derive(Clone, Copy, Debug, PartialEq, Eq)]
pub(crate) enum Wanted {
    /// Any expression.
    Expression,
    /// One that no `OR` joins.
    Conjunction,
    /// One that no operator joins.
    Part,
}

/// What is known once some nodes have been gone over, from the last one on.
#[derive(Drop)]
pub(crate) struct Progress {
    /// What is wanted where the next node stands.
    wanted: Wanted,
    /// The pieces in front of its tree, the nearest one last.
    waiting: Vec<Piece>,
    /// The pieces behind its tree, the first one last.
    pieces: Vec<Piece>,
}

/// Puts a piece on top.
fn put(stack: &mut Vec<Piece>, piece: Piece) -> Result<(), AllocError>
    ensures { OnOk result (reverse stack.new.items ≡ piece ∷ reverse stack.old.items) }
{
    stack.push(piece)?;
    Ok(())
}

/// Takes the piece on top off.
fn take_off(stack: &mut Vec<Piece>) -> Option<Piece>
    ensures { Pops (reverse stack.old.items) result (reverse stack.new.items) }
{
    stack.pop()
}

/// A part is printed: what waits in front of it follows, up to the operator whose right side ends there. What is
/// wanted on the left side of that.
fn end_part(waiting: &mut Vec<Piece>, pieces: &mut Vec<Piece>) -> Result<Wanted, AllocError>
    ensures { IfOk result (λ wanted. progress wanted (reverse waiting.new.items) (reverse pieces.new.items)
        ≡ after_part (reverse waiting.old.items) (reverse pieces.old.items)) }
{
    'waiting: while let Some(piece) = take_off(waiting) {
        put(pieces, piece)?;
        match piece {
            Piece::And => return Ok(Wanted::Conjunction),
            Piece::Or => return Ok(Wanted::Expression),
            _ => {}
        }
    }
    Ok(Wanted::Expression)
}

impl Wanted {
    /// Whether a tree that `AND` joins stands in parentheses.
    fn groups_and(self) -> bool
        ensures { result ≡ spec.groups_and self }
    {
        match self {
            Wanted::Expression | Wanted::Conjunction => false,
            Wanted::Part => true,
        }
    }

    /// Whether a tree that `OR` joins stands in parentheses.
    fn groups_or(self) -> bool
        ensures { result ≡ spec.groups_or self }
    {
        match self {
            Wanted::Expression => false,
            Wanted::Conjunction | Wanted::Part => true,
        }
    }
}

impl Progress {
    fn term(&mut self, place: usize) -> Result<(), AllocError>
        ensures { OnOk result (progress_of self.new ≡ progress_after (progress_of self.old) (ExprNode.Term place)) }
    {
        put(&mut self.pieces, Piece::Term(place))?;
        self.wanted = end_part(&mut self.waiting, &mut self.pieces)?;
        Ok(())
    }

    /// An operator waits in front of its right side.
    fn operator(&mut self, operator: Piece, right: Wanted, grouped: bool) -> Result<(), AllocError>
        ensures { OnOk result (progress_of self.new ≡ after_operator grouped operator right (progress_of self.old)) }
    {
        if grouped {
            put(&mut self.pieces, Piece::Close)?;
            put(&mut self.waiting, Piece::Open)?;
        }
        put(&mut self.waiting, operator)?;
        self.wanted = right;
        Ok(())
    }

    fn node(&mut self, node: ExprNode) -> Result<(), AllocError>
        ensures { OnOk result (progress_of self.new ≡ progress_after (progress_of self.old) node) }
    {
        match node {
            ExprNode::Term(place) => self.term(place),
            ExprNode::And => self.operator(Piece::And, Wanted::Part, self.wanted.groups_and()),
            ExprNode::Or => self.operator(Piece::Or, Wanted::Conjunction, self.wanted.groups_or()),
        }
    }
}

/// The pieces of the tree that nodes in postfix form are, in text order.
pub(crate) fn pieces_of(alloc: Global, nodes: &[ExprNode]) -> Result<Vec<Piece>, AllocError>
    ensures { IfOk result (λ pieces. pieces.items ≡ (gone_over nothing_printed (reverse nodes.now)).pieces) }
{
    let mut progress = Progress {
        wanted: Wanted::Expression,
        waiting: Vec::new(alloc),
        pieces: Vec::new(alloc),
    };
    let mut rest = nodes;
    'nodes: while let Some((node, before)) = rest.split_last() {
        progress.node(*node)?;
        rest = before;
    }
    let mut pieces = progress.pieces;
    pieces.reverse();
    Ok(pieces)
}
