//! What a licence expression is made of.
ghost use Rattle.std.specs.Prelude.{◌≡◌};

use crate::term::LicenseItem;
use deny_text::{Span, Text};

/// What the catalogue and the text say of a licence beyond its name. A reference has none of these marks.
#[derive(Clone, Copy, Debug, PartialEq, Eq)]
pub struct LicenseMarks {
    /// The name means this version or any later one.
    pub later: bool,
    /// The name is no longer to be used in expressions.
    pub deprecated: bool,
    /// The name belongs to a family of the GNU licences.
    pub gnu: bool,
    /// A `+` follows directly.
    pub plus: bool,
}

/// A licence or a reference that is where a term is wanted.
#[derive(Drop)]
pub struct Simple {
    pub item: LicenseItem,
    pub marks: LicenseMarks,
    /// The place behind its name, before a `+`.
    pub name_end: usize,
}

/// What is at a place of an expression.
#[derive(Drop)]
pub enum ItemKind {
    Term(Simple),
    /// The name of an exception, where one is wanted.
    Exception(Text),
    And,
    /// `OR`, or a slash that says it.
    Or,
    With,
    Open,
    Close,
    /// A `+` that belongs to no licence.
    Plus,
    /// Another word.
    Word,
    /// A character that no expression is made of.
    Other,
}

/// What is at a place of an expression, and where.
#[derive(Drop)]
pub struct Item {
    pub what: ItemKind,
    pub span: Span,
}

/// What may be at a place, by what is before it.
#[derive(Clone, Copy, Debug, PartialEq, Eq)]
pub enum WantedItem {
    Term,
    Exception,
    /// An operator or `)`, behind a term without an exception.
    AfterTerm,
    /// An operator or `)`, behind a term with its exception or behind `)`.
    AfterPart,
}

/// A token by its first byte.
#[derive(Clone, Copy, Debug, PartialEq, Eq)]
pub enum Token {
    /// The longest run of ASCII letters, digits, `-`, `.` and `:`.
    Word,
    Plus,
    Open,
    Close,
    Slash,
    /// A character of no other token.
    Other,
}
