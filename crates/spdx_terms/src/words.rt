//! The words and marks that licence expressions are made of.
ghost use Rattle.std.specs.Prelude.{◌≡◌, ◌≤◌, length, Some};
ghost use Rattle.std.specs.Option.{option_map, option_copied};
ghost use Rattle.std.specs.List.{list_all};
ghost use Rattle.spdx_terms.specs.catalog.Words.{is_word_byte as word_byte, is_word as word_text};
ghost use Rattle.spdx_terms.specs.Tokens.{is_white as white, in_word as inside_word};
ghost use Rattle.spdx_terms.specs.Tokens.{token_of as token_with, rest_len, says_and as and_text};
ghost use Rattle.spdx_terms.specs.Tokens.{says_or as or_text, says_with as with_text};
ghost use Rattle.spdx_terms.specs.Tokens.{after_prefix as behind_prefix, own_license as own};
ghost use Rattle.spdx_terms.specs.Tokens.{in_document as within_document, goes_on_over, reference_of};
ghost use Rattle.spdx_terms.specs.References.{parts_item};

use crate::item::Token;
use deny_text::character::goes_on;

/// Space, tab, LF or CR.
pub fn is_white(byte: u8) -> bool
    ensures { result ≡ white byte }
{
    byte == b' ' || byte == 9 || byte == 10 || byte == 13
}

fn is_word_byte(byte: u8) -> bool
    ensures { result ≡ word_byte byte }
{
    byte.is_ascii_alphanumeric() || byte == b'-' || byte == b'.'
}

fn in_word(byte: u8) -> bool
    ensures { result ≡ inside_word byte }
{
    is_word_byte(byte) || byte == b':'
}

/// The token that begins with a byte.
pub fn token_of(byte: u8, slash: bool) -> Token
    ensures { result ≡ token_with slash byte }
{
    if in_word(byte) {
        Token::Word
    } else if byte == b'+' {
        Token::Plus
    } else if byte == b'(' {
        Token::Open
    } else if byte == b')' {
        Token::Close
    } else if slash && byte == b'/' {
        Token::Slash
    } else {
        Token::Other
    }
}

impl Token {
    /// Whether it goes on over a byte.
    fn spans(self, byte: u8) -> bool
        ensures { result ≡ goes_on_over self byte }
    {
        match self {
            Token::Word => in_word(byte),
            Token::Other => goes_on(byte),
            _ => false,
        }
    }

    /// How many bytes it takes at the start of what is behind its first byte.
    pub fn rest_len(self, rest: &[u8]) -> usize
        ensures len { result ≡ rest_len self rest.now }
        ensures bound { result ≤ length rest.now }
    {
        let mut len = 0;
        'bytes: while len < rest.len() && self.spans(rest[len]) {
            len += 1;
        }
        len
    }
}

fn all_in_word(bytes: &[u8]) -> bool
    ensures { result ≡ list_all word_byte bytes.now }
{
    bytes.iter().all(|byte| is_word_byte(*byte))
}

/// At least one letter, digit, `-` or `.`, and nothing else.
fn is_word(text: &str) -> bool
    ensures { result ≡ word_text text.now }
{
    match text.as_bytes().split_first() {
        None => false,
        Some((first, rest)) => is_word_byte(*first) && all_in_word(rest),
    }
}

pub fn says_and(word: &str) -> bool
    ensures { result ≡ and_text word.now }
{
    word == "AND" || word == "and"
}

pub fn says_or(word: &str) -> bool
    ensures { result ≡ or_text word.now }
{
    word == "OR" || word == "or"
}

pub fn says_with(word: &str) -> bool
    ensures { result ≡ with_text word.now }
{
    word == "WITH" || word == "with"
}

/// What is behind a prefix.
#[tactic(auto, using(crate::proofs::WordLemmas::strips))]
fn after_prefix<'t>(text: &'t str, prefix: &str) -> Option<&'t str>
    ensures { option_copied result ≡ behind_prefix prefix.now text.now }
{
    text.strip_prefix(prefix)
}

/// A reference within its word.
#[derive(Clone, Copy)]
pub struct ReferenceParts<'t> {
    pub doc: Option<&'t str>,
    pub id: &'t str,
}

/// A licence of one's own, in a document or in none.
fn own_license<'t>(doc: Option<&'t str>, id: Option<&'t str>) -> Option<ReferenceParts<'t>>
    ensures { option_map parts_item result ≡ own (option_copied doc.entry) (option_copied id.entry) }
{
    match id {
        Some(id) if is_word(id) => Some(ReferenceParts { doc, id }),
        _ => None,
    }
}

/// One in a document of one's own, by what is behind `DocumentRef-`.
fn in_document(text: &str) -> Option<ReferenceParts<'_>>
    ensures { option_map parts_item result ≡ within_document (Some text.now) }
{
    let (doc, rest) = text.split_once(':')?;
    if is_word(doc) {
        own_license(Some(doc), after_prefix(rest, "LicenseRef-"))
    } else {
        None
    }
}

/// The reference that a word is.
pub fn reference_parts(word: &str) -> Option<ReferenceParts<'_>>
    ensures { option_map parts_item result ≡ reference_of word.now }
{
    let own = own_license(None, after_prefix(word, "LicenseRef-"));
    match own {
        Some(parts) => Some(parts),
        None => in_document(after_prefix(word, "DocumentRef-")?),
    }
}
