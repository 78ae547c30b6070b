//! Why a text is no expression.
ghost use Rattle.std.specs.Prelude.{◌≡◌, Some};
ghost use Rattle.spdx_terms.specs.Reasons.{reason_text};

use deny_text::Span;
use std::alloc::AllocError;
use std::fmt;

/// What is wrong at the first fault of a text.
#[derive(Clone, Copy, Debug, PartialEq, Eq)]
pub enum ParseReason {
    /// White space alone.
    Empty,
    /// A character of no token.
    InvalidCharacters,
    /// A `+` that does not directly follow a licence.
    SeparatedPlus,
    /// A `)` while no parenthesis is open.
    UnopenedParens,
    /// What may not are there, or the end where a term or an exception is expected.
    Unexpected,
    /// A word that is no term.
    UnknownTerm,
    /// A word that is no exception.
    UnknownException,
    /// A deprecated name that the mode refuses.
    DeprecatedId,
    /// A `+` behind a GNU name that the mode refuses.
    GplNoPlus,
    /// The end while a parenthesis is open.
    UnclosedParens,
}

/// The first fault of a text, and where it is there: bytes from 0.
#[derive(Clone, Copy, Debug, PartialEq, Eq)]
pub struct ParseError {
    pub reason: ParseReason,
    pub span: Span,
}

/// Why no expression was read.
#[derive(Clone, Copy, Debug, PartialEq, Eq)]
pub enum ExprError {
    Parse(ParseError),
    /// No memory was left.
    Memory,
}

impl ParseReason {
    pub fn as_str(self) -> &'static str
        ensures { result.now ≡ reason_text self }
    {
        match self {
            ParseReason::Empty => "expression is empty",
            ParseReason::InvalidCharacters => "invalid character(s)",
            ParseReason::SeparatedPlus => "a plus was separated from its license",
            ParseReason::UnopenedParens => "unopened parens",
            ParseReason::Unexpected => "unexpected term",
            ParseReason::UnknownTerm => "unknown term",
            ParseReason::UnknownException => "unknown exception",
            ParseReason::DeprecatedId => "a deprecated license identifier was used",
            ParseReason::GplNoPlus => "a GNU license was followed by a plus",
            ParseReason::UnclosedParens => "unclosed parens",
        }
    }
}

impl fmt::Display for ParseReason {
    ghost output = { λ reason. Some (reason_text reason) };

    fn fmt<W: fmt::Write>(&self, f: &mut fmt::Formatter<W>) -> fmt::Result {
        fmt::Display::fmt(self.as_str(), f)
    }
}

impl From<ParseError> for ExprError {
    ghost use Rattle.std.specs.Prelude.{◌≡◌};
    ghost use Rattle.spdx_terms.specs.declared.error.ExprError.TheVariants.{Parse};

    ghost from_gives = { λ fault error. error ≡ Parse fault };

    fn from(fault: ParseError) -> ExprError {
        ExprError::Parse(fault)
    }
}

impl From<AllocError> for ExprError {
    ghost use Rattle.std.specs.Prelude.{◌≡◌};
    ghost use Rattle.spdx_terms.specs.declared.error.ExprError.TheVariants.{Memory};

    ghost from_gives = { λ _ error. error ≡ Memory };

    fn from(_failed: AllocError) -> ExprError {
        ExprError::Memory
    }
}
