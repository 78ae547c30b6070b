//! Strings and keys of a text.
ghost use Rattle.std.specs.Prelude.{◌≡◌, true, false};

use deny_text::{Span, Text};
use std::marker::Model;

/// Where the text of a string is.
#[derive(Drop)]
enum HeldText<'de> {
    /// In the text that was read, which had no escape there.
    Borrowed(&'de str),
    Owned(Text),
}

/// A string of the text.
#[derive(Drop)]
pub struct Str<'de> {
    held: HeldText<'de>,
}

impl<'de> Model for Str<'de> {
    ghost use Rattle.toml_subset.specs.Written.{WrittenString};

    ghost Value = { WrittenString };

    ghost use Rattle.toml_subset.specs.StrView.{str_view};

    ghost view = { str_view };
}

/// A key of a table, with its place in the text, without quotes.
#[derive(Drop)]
pub struct Key<'de> {
    pub name: Str<'de>,
    pub span: Span,
}

/// A string that is in the text as it is meant.
pub fn plain_string(text: &str) -> Str<'_>
    ensures { result ≡ record { text = text.now; escaped = false } }
{
    Str {
        held: HeldText::Borrowed(text),
    }
}

/// A string that was written with escapes.
pub fn escaped_string<'de>(text: Text) -> Str<'de>
    ensures { result ≡ record { text = text; escaped = true } }
{
    Str {
        held: HeldText::Owned(text),
    }
}

impl<'de> Str<'de> {
    /// The text that the string stands for.
    pub fn as_str(&self) -> &str
        ensures { result.now ≡ self.now.text }
    {
        match &self.held {
            HeldText::Borrowed(text) => text,
            HeldText::Owned(text) => text.as_str(),
        }
    }

    /// Whether it was written with escapes.
    pub fn has_escapes(&self) -> bool
        ensures { result ≡ self.now.escaped }
    {
        match &self.held {
            HeldText::Borrowed(_) => false,
            HeldText::Owned(_) => true,
        }
    }
}
