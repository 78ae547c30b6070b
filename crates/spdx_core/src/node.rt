//! The nodes of a licence expression.

/// A node of an expression in postfix form: an operator is behind its two sides.
#[derive(Clone, Copy, Debug, PartialEq, Eq)]
pub enum ExprNode {
    /// The term at a place, counted from 0 in text order.
    Term(usize),
    And,
    Or,
}
