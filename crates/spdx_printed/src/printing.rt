//! Printing an expression.
ghost use Rattle.std.specs.Prelude.{◌≡◌, ◌++◌, IfOk, OnOk, string_bytes};
ghost use Rattle.std.specs.List.{flat_map};
ghost use Rattle.spdx_printed.specs.Pieces.{piece_text};
ghost use Rattle.spdx_printed.specs.Printed.{printed_of, term_text};

use crate::pieces::{Piece, pieces_of};
use deny_text::Text;
use spdx_core::{Expression, ExpressionReq};
use std::alloc::{AllocError, Global};
use std::fmt::Write;

/// Appends the term at a place; nothing where there is none.
pub fn push_term(text: &mut String, terms: &[ExpressionReq], place: usize) -> Result<(), AllocError>
    ensures { OnOk result (string_bytes text.new ≡ string_bytes text.old ++ term_text terms.now place) }
{
    match terms.get(place) {
        Some(term) => write!(text, "{}", term.req),
        None => Ok(()),
    }
}

fn push_piece(text: &mut String, terms: &[ExpressionReq], piece: Piece) -> Result<(), AllocError>
    ensures { OnOk result (string_bytes text.new ≡ string_bytes text.old ++ piece_text terms.now piece) }
{
    match piece {
        Piece::Term(place) => push_term(text, terms, place),
        Piece::And => text.push_str(" AND "),
        Piece::Or => text.push_str(" OR "),
        Piece::Open => text.push_str("("),
        Piece::Close => text.push_str(")"),
    }
}

/// The pieces one behind the other.
fn text_of(alloc: Global, terms: &[ExpressionReq], pieces: &[Piece]) -> Result<String, AllocError>
    ensures { IfOk result (λ text. string_bytes text ≡ flat_map (piece_text terms.now) pieces.now) }
{
    let mut text = String::new(alloc);
    'pieces: for piece in pieces {
        push_piece(&mut text, terms, *piece)?;
    }
    Ok(text)
}

/// An expression, printed: its terms and the operators between them, in parentheses only where without them the
/// text would be read as another tree.
#[tactic(auto, using(crate::proofs::PieceLemmas::printed_by))]
pub fn printed(alloc: Global, expression: &Expression) -> Result<Text, AllocError>
    ensures { IfOk result (λ text. text ≡ printed_of expression.now.terms expression.now.tree) }
{
    let pieces = pieces_of(alloc, expression.nodes())?;
    let text = text_of(alloc, expression.requirements(), &pieces)?;
    Ok(Text::from(text))
}
