//! The parts of headers.

use deny_text::Span;

/// What a part of a header opens.
#[derive(Clone, Copy)]
pub enum HeaderPart {
    /// A part before the last: the table that the next part is in.
    Through,
    /// The last part of a header with this place: its table.
    Table(Span),
    /// The last part of an array header with this place: a further table of its array.
    Array(Span),
}
