//! Values that are no arrays and no tables.
ghost use Rattle.std.specs.Prelude.{◌≡◌, ◌≤◌, length};
ghost use Rattle.toml_subset.specs.Answer.{AnswersToml, AnswersSyntax};
ghost use Rattle.toml_subset.specs.Raw.{word_of};
ghost use Rattle.toml_subset.specs.Reading.{shared_len as shared_count, word_read, read_scalar as scalar_at};
ghost use Rattle.toml_subset.specs.frames.Scalars.{scalar_found};

use crate::{Str, SyntaxError, TomlError, begins_number, read_number, read_string, stands, stuck};
use deny_text::Span;
use std::alloc::Global;

/// A value that is no array and no table.
#[derive(Drop)]
pub enum Scalar<'de> {
    String(Str<'de>),
    Number(crate::Number),
    Boolean(bool),
}

/// How many bytes of a word are at the front of a text.
fn shared_len(word: &[u8], text: &[u8]) -> usize
    ensures count { result ≡ shared_count word.now text.now }
    ensures within { result ≤ length word.now }
    ensures inside { result ≤ length text.now }
{
    match word {
        [first, rest @ ..] => match text {
            [byte, more @ ..] if *first == *byte => 1 + shared_len(rest, more),
            _ => 0,
        },
        [] => 0,
    }
}

fn word(value: bool) -> &'static [u8]
    ensures { result.now ≡ word_of value }
{
    if value { b"true" } else { b"false" }
}

/// `true` or `false` at a place, and the place behind it.
fn read_word(
    text: &str,
    place: usize,
    value: bool,
) -> Result<(Scalar<'_>, Span, usize), SyntaxError>
    requires { place ≤ length text.now }
    ensures { AnswersSyntax scalar_found (word_read value text.now place) result }
{
    let word = word(value);
    let end = place + shared_len(word, text.as_bytes().split_at(place).1);
    if end == place + word.len() {
        Ok((Scalar::Boolean(value), Span { start: place, end }, end))
    } else {
        Err(stuck(text, end))
    }
}

/// The number, string or word at a place, and the place behind it.
pub fn read_scalar(
    alloc: Global,
    text: &str,
    place: usize,
) -> Result<(Scalar<'_>, Span, usize), TomlError>
    requires { place ≤ length text.now }
    ensures { AnswersToml scalar_found (scalar_at text.now place) result }
{
    let bytes = text.as_bytes();
    if begins_number(text, place) {
        match read_number(text, place) {
            Ok((number, end)) => Ok((Scalar::Number(number), Span { start: place, end }, end)),
            Err(fault) => Err(TomlError::Syntax(fault)),
        }
    } else if stands(bytes, place, b'"') || stands(bytes, place, b'\'') {
        match read_string(alloc, text, place) {
            Ok((string, span, end)) => Ok((Scalar::String(string), span, end)),
            Err(error) => Err(error),
        }
    } else if stands(bytes, place, b't') {
        word_at(text, place, true)
    } else if stands(bytes, place, b'f') {
        word_at(text, place, false)
    } else {
        Err(TomlError::Syntax(stuck(text, place)))
    }
}

fn word_at(text: &str, place: usize, value: bool) -> Result<(Scalar<'_>, Span, usize), TomlError>
    requires { place ≤ length text.now }
    ensures { AnswersToml scalar_found (word_read value text.now place) result }
{
    match read_word(text, place, value) {
        Ok(found) => Ok(found),
        Err(fault) => Err(TomlError::Syntax(fault)),
    }
}
