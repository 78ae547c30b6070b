//! Licence expressions.
ghost use Rattle.std.specs.Prelude.{◌≡◌, IfOk, Some, length};
ghost use Rattle.spdx_core.specs.Expressions.{ExpressionAnswers, IsExpression};
ghost use Rattle.spdx_core.specs.Reading.{postfix};

use crate::node::ExprNode;
use crate::read::read_text;
use deny_text::Text;
use spdx_terms::catalog::Catalog;
use spdx_terms::{ExprError, ExpressionReq, ParseMode};
use std::alloc::{AllocError, Global};
use std::fmt;
use std::marker::Model;

/// A licence expression as it was read: its text, its terms in text order, and how they are joined. It prints
/// its text.
#[derive(Drop)]
pub struct Expression {
    text: Text,
    terms: Vec<ExpressionReq>,
    nodes: Vec<ExprNode>,
}

impl Model for Expression {
    ghost use Rattle.spdx_core.specs.Reading.{ExpressionView, tree_of};
    ghost use Rattle.spdx_core.specs.ExpressionCode.{expression_code};
    ghost use Rattle.spdx_core.specs.Expressions.{AreNodesKept};

    ghost Value = { ExpressionView };

    ghost coded = { expression_code };

    ghost view = { λ e. record { text = e.text; terms = e.terms.items; tree = tree_of e.nodes.items } };

    ghost invariant = { λ e. AreNodesKept e.text e.terms.items e.nodes.items };
}

/// Copies of terms, in order.
fn copies(alloc: Global, terms: &[ExpressionReq]) -> Result<Vec<ExpressionReq>, AllocError>
    ensures { IfOk result (λ copy. copy.items ≡ terms.now) }
{
    let mut copies = Vec::new(alloc);
    'terms: for term in terms {
        let copy = term.copy(alloc)?;
        copies.push(copy)?;
    }
    Ok(copies)
}

impl Expression {
    /// Reads an expression in strict mode.
    pub fn parse<C: Catalog>(
        alloc: Global,
        text: &str,
        catalog: &C,
    ) -> Result<Expression, ExprError>
        ensures { ExpressionAnswers ParseMode.STRICT (C.lists catalog.now) text.now result }
    {
        Expression::parse_mode(alloc, text, ParseMode::STRICT, catalog)
    }

    /// Reads an expression, or tells its first fault.
    pub fn parse_mode<C: Catalog>(
        alloc: Global,
        text: &str,
        mode: ParseMode,
        catalog: &C,
    ) -> Result<Expression, ExprError>
        ensures { ExpressionAnswers mode (C.lists catalog.now) text.now result }
    {
        let mut reader = read_text(alloc, text, mode, catalog)?;
        reader.finish()?;
        reader.terms.shrink_to_fit();
        let text = Text::copy(alloc, text)?;
        Ok(Expression {
            text,
            terms: reader.terms,
            nodes: reader.nodes,
        })
    }

    /// The terms in text order.
    pub fn requirements(&self) -> &[ExpressionReq]
        ensures terms { result.now ≡ self.now.terms }
        ensures facts { IsExpression self.now.text self.now.terms self.now.tree }
    {
        self.terms.as_slice()
    }

    /// The tree in postfix form.
    pub fn nodes(&self) -> &[ExprNode]
        ensures nodes { result.now ≡ postfix self.now.tree }
        ensures facts { IsExpression self.now.text self.now.terms self.now.tree }
    {
        self.nodes.as_slice()
    }

    /// An expression that is equal in all parts.
    pub fn copy(&self, alloc: Global) -> Result<Expression, AllocError>
        ensures { IfOk result (λ copy. copy ≡ self.now) }
    {
        let text = Text::copy(alloc, self.text.as_str())?;
        let terms = copies(alloc, self.terms.as_slice())?;
        let nodes = Vec::from_slice(alloc, self.nodes.as_slice())?;
        Ok(Expression { text, terms, nodes })
    }

    /// The text as it was read.
    pub fn as_ref(&self) -> &str
        ensures { result.now ≡ self.now.text }
    {
        self.text.as_str()
    }
}

impl fmt::Display for Expression {
    ghost output = { λ e. Some e.text };

    fn fmt<W: fmt::Write>(&self, f: &mut fmt::Formatter<W>) -> fmt::Result {
        fmt::Display::fmt(&self.text, f)
    }
}
