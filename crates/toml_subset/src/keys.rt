//! Keys, part by part.
ghost use Rattle.std.specs.Prelude.{◌≡◌, ◌<◌, ◌≤◌, length, false, slice_range, IsTrue, IfOk};
ghost use Rattle.toml_subset.specs.Answer.{AnswersToml};
ghost use Rattle.toml_subset.specs.Bytes.{is_bare as bare};
ghost use Rattle.toml_subset.specs.Places.{passes_at};
ghost use Rattle.toml_subset.specs.StringReading.{bare_key as bare_key_at, quoted_key as quoted_key_at};
ghost use Rattle.toml_subset.specs.StringReading.{read_key as key_at, keys_at, equals_behind};
ghost use Rattle.toml_subset.specs.StringReading.{read_left as left_at};

use crate::error::TomlError;
use crate::fault::stuck;
use crate::scan::{RunKind, after_blanks, is_bare, run_end, stands};
use crate::string::{Key, plain_string};
use crate::strings::{has_three, read_string};
use deny_text::{ListOf, Span};
use std::alloc::Global;

/// The parts of a key, in order.
pub type Keys<'de> = ListOf<Key<'de>>;

/// Whether a bare key begins at a place.
fn begins_bare(text: &[u8], place: usize) -> bool
    ensures { result ≡ passes_at bare text.now place }
{
    match text.get(place) {
        Some(byte) => is_bare(*byte),
        None => false,
    }
}

/// The bare key at a place, and the place behind it.
fn bare_key(text: &str, place: usize) -> (Key<'_>, usize)
    requires inside { place ≤ length text.now }
    requires begins { IsTrue (passes_at bare text.now place) }
    ensures key { result ≡ bare_key_at text.now place }
    ensures within { result.1 ≤ length text.now }
{
    let end = run_end(text.as_bytes(), place, RunKind::Bare);
    let name = plain_string(&text[place..end]);
    (
        Key {
            name,
            span: Span { start: place, end },
        },
        end,
    )
}

/// The quoted key at a place.
fn quoted_key(alloc: Global, text: &str, place: usize) -> Result<(Key<'_>, usize), TomlError>
    requires { place ≤ length text.now }
    ensures answer { AnswersToml (λ found. found) (quoted_key_at text.now place) result }
    ensures within { IfOk result (λ found. found.1 ≤ length text.now) }
{
    let bytes = text.as_bytes();
    if has_three(bytes, place, b'"') || has_three(bytes, place, b'\'') {
        return Err(TomlError::Syntax(stuck(text, place + 2)));
    }
    match read_string(alloc, text, place) {
        Ok((name, span, next)) => Ok((Key { name, span }, next)),
        Err(error) => Err(error),
    }
}

/// The key part at a place, and the place behind it.
fn read_key(alloc: Global, text: &str, place: usize) -> Result<(Key<'_>, usize), TomlError>
    requires { place ≤ length text.now }
    ensures answer { AnswersToml (λ found. found) (key_at text.now place) result }
    ensures within { IfOk result (λ found. found.1 ≤ length text.now) }
{
    if begins_bare(text.as_bytes(), place) {
        Ok(bare_key(text, place))
    } else {
        quoted_key(alloc, text, place)
    }
}

/// All parts of the key at a place, and the place behind them.
pub fn read_keys(alloc: Global, text: &str, place: usize) -> Result<(Keys<'_>, usize), TomlError>
    requires { place ≤ length text.now }
    ensures answer { AnswersToml (λ found. found) (keys_at text.now place) result }
    ensures within { IfOk result (λ found. found.1 ≤ length text.now) }
    ensures some { IfOk result (λ found. 0 < length found.0) }
{
    let bytes = text.as_bytes();
    let mut keys = ListOf::new(alloc);
    let mut place = place;
    'parts: loop {
        match read_key(alloc, text, place) {
            Ok((key, end)) => {
                keys.push(key)?;
                let dot = after_blanks(bytes, end);
                if !stands(bytes, dot, b'.') {
                    return Ok((keys, end));
                }
                place = after_blanks(bytes, dot + 1);
            }
            Err(error) => return Err(error),
        }
    }
}

/// All parts of the key at a place, and the place of the value behind its `=`.
pub fn read_left(alloc: Global, text: &str, place: usize) -> Result<(Keys<'_>, usize), TomlError>
    requires { place ≤ length text.now }
    ensures answer { AnswersToml (λ found. found) (left_at text.now place) result }
    ensures within { IfOk result (λ found. found.1 ≤ length text.now) }
    ensures some { IfOk result (λ found. 0 < length found.0) }
{
    match read_keys(alloc, text, place) {
        Ok((keys, end)) => {
            let bytes = text.as_bytes();
            let equals = after_blanks(bytes, end);
            if stands(bytes, equals, b'=') {
                Ok((keys, after_blanks(bytes, equals + 1)))
            } else {
                Err(TomlError::Syntax(stuck(text, equals)))
            }
        }
        Err(error) => Err(error),
    }
}
