//! Why a text is refused.

use deny_text::Span;
use std::alloc::AllocError;

/// What is wrong at the first fault of a text.
#[derive(Clone, Copy, Debug, PartialEq, Eq)]
pub enum SyntaxReason {
    /// The text ends inside a construct.
    UnexpectedEnd,
    /// A character that cannot go on here.
    Unexpected,
    /// An escape that is not listed, or that is no scalar value.
    InvalidEscape,
    /// A control character in a string or a comment.
    ControlCharacter,
    /// A number run that has no listed form.
    NumberForm,
    /// A number outside of 64 bits with a sign.
    NumberRange,
    /// A date or time, `inf`, `nan`, an exponent, or a fraction of more than two digits.
    Unsupported,
    /// A key that its table has.
    DuplicateKey,
    /// A header or a dotted key that meets a table which it may not extend, or another value.
    RedefinedTable,
    /// More than 128 tables and arrays between the root and a value.
    TooDeep,
}

/// A fault and where it is there. The span lies in the text, on character borders.
#[derive(Clone, Copy, Debug, PartialEq, Eq)]
pub struct SyntaxError {
    pub reason: SyntaxReason,
    pub span: Span,
}

/// Why no value was read.
#[derive(Clone, Copy, Debug, PartialEq, Eq)]
pub enum TomlError {
    Syntax(SyntaxError),
    /// No memory was left.
    Memory,
}

impl From<SyntaxError> for TomlError {
    ghost use Rattle.std.specs.Prelude.{◌≡◌};
    ghost use Rattle.toml_subset.specs.declared.error.TomlError.TheVariants.{Syntax};

    ghost from_gives = { λ fault error. error ≡ Syntax fault };

    fn from(fault: SyntaxError) -> TomlError {
        TomlError::Syntax(fault)
    }
}

impl From<AllocError> for TomlError {
    ghost use Rattle.std.specs.Prelude.{◌≡◌};
    ghost use Rattle.toml_subset.specs.declared.error.TomlError.TheVariants.{Memory};

    ghost from_gives = { λ _ error. error ≡ Memory };

    fn from(_failed: AllocError) -> TomlError {
        TomlError::Memory
    }
}
