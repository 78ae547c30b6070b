//! The reader of licence expressions: one pass over the items, with a level for each open parenthesis.
ghost use Rattle.std.specs.Prelude.{◌≡◌, OnOk, OnErr, IsOk, Some, None};
ghost use Rattle.deny_text.specs.Fronts.{StandsInFront};
ghost use Rattle.spdx_core.specs.Machine.{machine_of, machine_after, after_part as part_after};
ghost use Rattle.spdx_core.specs.Machine.{after_or as or_after, after_close as close_after};
ghost use Rattle.spdx_core.specs.Machine.{after_open as open_after, no_machine, nodes_with};
ghost use Rattle.spdx_core.specs.Reading.{with_exception, term_with_exception as with_name};

use crate::node::ExprNode;
use crate::stack::Stack;
use deny_text::{Span, Text};
use spdx_terms::item::{ItemKind, Simple};
use spdx_terms::{ExpressionReq, LicenseReq};
use std::alloc::{AllocError, Global};

/// What waits for its right side between two parentheses.
#[derive(Clone, Copy)]
pub struct OpenOperators {
    pub or: bool,
    /// A part was read, so that the next one goes to it by an `AND`.
    pub and: bool,
}

impl OpenOperators {
    const NOTHING: OpenOperators = OpenOperators {
        or: false,
        and: false,
    };
}

/// What was read so far: the nodes and terms, and what waits, in each open parenthesis and in the one at
/// hand.
#[derive(Drop)]
pub struct Reader {
    pub outer: Stack<OpenOperators>,
    pub level: OpenOperators,
    pub nodes: Vec<ExprNode>,
    pub terms: Vec<ExpressionReq>,
}

/// A term with an exception, which ends where that ends.
fn excepted(term: ExpressionReq, name: Text, end: usize) -> ExpressionReq
    ensures { result ≡ with_name term name end }
{
    let ExpressionReq { req, span } = term;
    let LicenseReq { item, exception: _ } = req;
    ExpressionReq {
        req: LicenseReq {
            item,
            exception: Some(name),
        },
        span: Span {
            start: span.start,
            end,
        },
    }
}

/// The last term gets an exception, and ends where that ends. It takes no memory: the term goes back to its place.
fn except_last(terms: &mut Vec<ExpressionReq>, name: Text, end: usize) -> Result<(), AllocError>
    ensures ok { OnOk result (terms.new.items ≡ with_exception terms.old.items name end) }
    ensures fits { IsOk result }
{
    match terms.pop() {
        None => Ok(()),
        Some(last) => {
            terms.push(excepted(last, name, end))?;
            Ok(())
        }
    }
}

impl Reader {
    pub fn new(alloc: Global) -> Reader
        ensures { machine_of result ≡ no_machine }
    {
        Reader {
            outer: Stack::new(alloc),
            level: OpenOperators::NOTHING,
            nodes: Vec::new(alloc),
            terms: Vec::new(alloc),
        }
    }

    /// An `AND` that waits has its right side.
    fn end_part(&mut self) -> Result<(), AllocError>
        ensures ok { OnOk result (machine_of self.new ≡ part_after (machine_of self.old)) }
        ensures nodes { StandsInFront self.old.nodes.items self.new.nodes.items }
        ensures terms { self.new.terms ≡ self.old.terms }
    {
        if self.level.and {
            self.nodes.push(ExprNode::And)?;
        }
        self.level.and = true;
        Ok(())
    }

    /// An `OR` that waits has its right side, and another one follows.
    fn end_conjunction(&mut self) -> Result<(), AllocError>
        ensures ok { OnOk result (machine_of self.new ≡ or_after (machine_of self.old)) }
        ensures nodes { StandsInFront self.old.nodes.items self.new.nodes.items }
        ensures terms { self.new.terms ≡ self.old.terms }
    {
        if self.level.or {
            self.nodes.push(ExprNode::Or)?;
        }
        self.level = OpenOperators {
            or: true,
            and: false,
        };
        Ok(())
    }

    /// A `)` makes one part of its level.
    fn close(&mut self) -> Result<(), AllocError>
        ensures ok { OnOk result (machine_of self.new
            ≡ close_after (machine_of self.old).outer (machine_of self.old)) }
        ensures nodes { StandsInFront self.old.nodes.items self.new.nodes.items }
        ensures terms { self.new.terms ≡ self.old.terms }
    {
        match self.outer.pop() {
            None => Ok(()),
            Some(last) => {
                if self.level.or {
                    self.nodes.push(ExprNode::Or)?;
                }
                self.level = last;
                self.end_part()
            }
        }
    }

    fn term(&mut self, named: Simple, span: Span) -> Result<(), AllocError>
        ensures ok { OnOk result (machine_of self.new ≡ machine_after (machine_of self.old) (ItemKind.Term named) span) }
        ensures nodes { StandsInFront self.old.nodes.items self.new.nodes.items }
        ensures terms { StandsInFront self.old.terms.items self.new.terms.items }
    {
        let place = self.terms.len();
        self.nodes.push(ExprNode::Term(place))?;
        let req = LicenseReq {
            item: named.item,
            exception: None,
        };
        self.terms.push(ExpressionReq { req, span })?;
        self.end_part()
    }

    fn open(&mut self) -> Result<(), AllocError>
        ensures ok { OnOk result (machine_of self.new ≡ open_after (machine_of self.old)) }
        ensures nodes { self.new.nodes ≡ self.old.nodes }
        ensures terms { self.new.terms ≡ self.old.terms }
    {
        self.outer.push(self.level)?;
        self.level = OpenOperators::NOTHING;
        Ok(())
    }

    /// Takes an item that has no fault. Where memory is wanted the nodes and terms so far stay, in front of what
    /// was added; a `)` may have left its level.
    pub fn take(&mut self, what: ItemKind, span: Span) -> Result<(), AllocError>
        ensures ok { OnOk result (machine_of self.new ≡ machine_after (machine_of self.old) what span) }
        ensures nodes { OnErr result (StandsInFront self.old.nodes.items self.new.nodes.items) }
        ensures terms { OnErr result (StandsInFront self.old.terms.items self.new.terms.items) }
    {
        match what {
            ItemKind::Term(named) => self.term(named, span),
            ItemKind::Exception(name) => except_last(&mut self.terms, name, span.end),
            ItemKind::Or => self.end_conjunction(),
            ItemKind::Open => self.open(),
            ItemKind::Close => self.close(),
            ItemKind::And | ItemKind::With | ItemKind::Plus | ItemKind::Word | ItemKind::Other =>
                Ok(()),
        }
    }

    /// The nodes are whole: an `OR` that waits has its right side. Where memory is wanted nothing changes.
    pub fn finish(&mut self) -> Result<(), AllocError>
        ensures nodes { OnOk result (self.new.nodes.items
            ≡ nodes_with self.old.level.or ExprNode.Or self.old.nodes.items) }
        ensures terms { OnOk result (self.new.terms ≡ self.old.terms) }
        ensures err { OnErr result ((self.new.nodes.items ≡ self.old.nodes.items) × (self.new.terms ≡ self.old.terms)) }
    {
        if self.level.or {
            self.nodes.push(ExprNode::Or)?;
        }
        Ok(())
    }
}
