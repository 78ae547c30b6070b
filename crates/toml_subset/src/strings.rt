//! Strings, read piece by piece.
ghost use Rattle.std.specs.Prelude.{◌≡◌, ◌+◌, ◌<◌, ◌≤◌, ◌==◌, ◌&&◌, ◌++◌, min, not, nat_le, true, false};
ghost use Rattle.std.specs.Prelude.{length, take, drop, option_map, unwrap_or, string_bytes, slice_get, Some};
ghost use Rattle.std.specs.Prelude.{encode_utf8, IsTrue, IfOk, OnOk};
ghost use Rattle.std.specs.List.{prefix_len};
ghost use Rattle.std.specs.Option.{SomeIff};
ghost use Rattle.std.specs.Str.{IsCharBoundary};
ghost use Rattle.toml_subset.specs.Answer.{AnswersToml};
ghost use Rattle.toml_subset.specs.Numbers.{is_digit_in as digit_in, count as counts};
ghost use Rattle.toml_subset.specs.Places.{behind_line_end as line_ends};
ghost use Rattle.toml_subset.specs.StringReading.{scalar_fault as fault_of_scalar};
ghost use Rattle.toml_subset.specs.StringReading.{escape_fault as fault_of_escape};
ghost use Rattle.toml_subset.specs.StringReading.{part_fault as fault_of_part, string_from};
ghost use Rattle.toml_subset.specs.StringReading.{read_string as string_at};
ghost use Rattle.toml_subset.specs.StringViews.{kind_of, quoting_start, meaning_of, part_of, is_plain_part as plain};
ghost use Rattle.toml_subset.specs.StringViews.{GoesOn, EndsOnBorder, ClosesWithin, kept_at, IsPlainRun};
ghost use Rattle.toml_subset.specs.StringViews.{IsStringRead};
ghost use Rattle.toml_subset.specs.Strings.{mark_of, is_long as long_kind, has_escapes as escapes_in};
ghost use Rattle.toml_subset.specs.Strings.{marks_in_row as marks_from, opening as opening_at, is_scalar};
ghost use Rattle.toml_subset.specs.Strings.{scalar_of, letter_escape as letter_means};
ghost use Rattle.toml_subset.specs.Strings.{scalar_escape as scalar_part, trimming_escape as trimming_part};
ghost use Rattle.toml_subset.specs.Strings.{escape_by as escape_of, escape_at as escape_part};
ghost use Rattle.toml_subset.specs.Strings.{mark_at as mark_part, part_at as part_from};

use crate::error::{SyntaxError, SyntaxReason, TomlError};
use crate::fault::{control_character, fault_at, stuck};
use crate::number::{count, is_digit_in};
use crate::scan::{after_blanks, after_white, char_end, line_end, may_stand, stands};
use crate::string::{Str, escaped_string, plain_string};
use deny_text::{Span, Text};
use std::alloc::{AllocError, Global};

/// The kinds of strings: `".."`, `'..'`, `"""..."""` and `'''...'''`.
#[derive(Clone, Copy)]
enum Quotes {
    Basic,
    Literal,
    LongBasic,
    LongLiteral,
}

/// What is in a string where no plain byte does.
#[derive(Clone, Copy)]
enum Special {
    /// The closing, up to a place.
    Closing(usize),
    /// An escape up to a place, and the character that it means, if any.
    Escape(Option<char>, usize),
    /// Nothing that may.
    Broken,
}

impl Quotes {
    fn mark(self) -> u8
        ensures { result ≡ mark_of (kind_of self) }
    {
        match self {
            Quotes::Basic | Quotes::LongBasic => b'"',
            Quotes::Literal | Quotes::LongLiteral => b'\'',
        }
    }

    fn is_long(self) -> bool
        ensures { result ≡ long_kind (kind_of self) }
    {
        match self {
            Quotes::Basic | Quotes::Literal => false,
            Quotes::LongBasic | Quotes::LongLiteral => true,
        }
    }

    fn has_escapes(self) -> bool
        ensures { result ≡ escapes_in (kind_of self) }
    {
        match self {
            Quotes::Basic | Quotes::LongBasic => true,
            Quotes::Literal | Quotes::LongLiteral => false,
        }
    }
}

/// How many of these marks are in a row at a place, six at most.
fn marks_at(text: &[u8], place: usize, mark: u8) -> usize
    requires { place ≤ length text.now }
    ensures { result ≡ min (marks_from mark text.now place) 6 }
{
    let mut marks = 0;
    'marks: while marks < 6 && stands(text, place + marks, mark) {
        marks += 1;
    }
    marks
}

/// Whether three marks or more are at a place.
pub fn has_three(text: &[u8], place: usize, mark: u8) -> bool
    requires { place ≤ length text.now }
    ensures { result ≡ nat_le 3 (marks_from mark text.now place) }
{
    marks_at(text, place, mark) >= 3
}

/// The kind of the string that begins at a place, and where its first piece is.
fn opening(text: &[u8], place: usize) -> Option<(Quotes, usize)>
    requires { place ≤ length text.now }
    ensures { option_map quoting_start result ≡ opening_at text.now place }
{
    if stands(text, place, b'"') {
        Some(if has_three(text, place, b'"') {
            (Quotes::LongBasic, behind_three(text, place))
        } else {
            (Quotes::Basic, place + 1)
        })
    } else if stands(text, place, b'\'') {
        Some(if has_three(text, place, b'\'') {
            (Quotes::LongLiteral, behind_three(text, place))
        } else {
            (Quotes::Literal, place + 1)
        })
    } else {
        None
    }
}

/// The place behind three marks, and behind the line end that may follow them.
fn behind_three(text: &[u8], place: usize) -> usize
    requires { place + 3 ≤ length text.now }
    ensures { result ≡ unwrap_or (line_ends text.now (place + 3)) (place + 3) }
{
    match line_end(text, place + 3) {
        Some(next) => next,
        None => place + 3,
    }
}

/// Whether a byte that stands for itself is at a place.
fn is_plain(text: &[u8], place: usize, quotes: Quotes) -> bool
    requires { place ≤ length text.now }
    ensures { result ≡ plain (part_from (kind_of quotes) text.now place) }
{
    if stands(text, place, quotes.mark()) {
        quotes.is_long() && is_kept_mark(marks_at(text, place, quotes.mark()))
    } else if quotes.has_escapes() && stands(text, place, b'\\') {
        false
    } else {
        stands_for_itself(text, place, quotes.is_long())
    }
}

/// Whether the first of so many marks belongs to a string over lines.
fn is_kept_mark(marks: usize) -> bool
    ensures { result ≡ (not (marks == 3) && nat_le marks 5) }
{
    marks != 3 && marks <= 5
}

/// Whether a byte that is no mark and no backslash may be at a place.
fn stands_for_itself(text: &[u8], place: usize, long: bool) -> bool
    requires { place ≤ length text.now }
    ensures { result ≡ kept_at long text.now place }
{
    match text.get(place) {
        Some(byte) => may_stand(*byte) || (long && line_end(text, place).is_some()),
        None => false,
    }
}

/// The place behind the longest run of plain bytes.
fn plain_end(text: &str, place: usize, quotes: Quotes) -> usize
    requires { place ≤ length text.now }
    ensures run { IsPlainRun (kind_of quotes) text.now place result }
    ensures stops { plain (part_from (kind_of quotes) text.now result) ≡ false }
    ensures border { IsCharBoundary text.now result }
{
    let bytes = text.as_bytes();
    let mut end = place;
    'bytes: while is_plain(bytes, end, quotes) {
        end += 1;
    }
    end
}

/// The character that hexadecimal digits name.
fn scalar(digits: &[u8]) -> Option<char>
    ensures { SomeIff result (IsTrue (is_scalar (counts 16 digits.now))) (counts 16 digits.now) }
{
    let value = count(16, digits)?;
    if value < 0x110000 {
        char::from_u32(value as u32)
    } else {
        None
    }
}

/// How many hexadecimal digits are at a place, so many at most.
fn digits_at(text: &[u8], place: usize, most: usize) -> usize
    requires { place ≤ length text.now }
    ensures found { result ≡ prefix_len (digit_in 16) (take most (drop place text.now)) }
    ensures within { place + result ≤ length text.now }
{
    let mut found = 0;
    'digits: while found < most
        && place + found < text.len()
        && is_digit_in(16, text[place + found])
    {
        found += 1;
    }
    found
}

/// The character of an escape of so many digits, from their place on.
fn scalar_at(text: &[u8], place: usize, digits: usize) -> Option<char>
    requires { place ≤ length text.now }
    ensures { option_map encode_utf8 result ≡ scalar_of digits (take digits (drop place text.now)) }
{
    if digits_at(text, place, digits) == digits {
        scalar(&text[place..place + digits])
    } else {
        None
    }
}

/// What an escape of one letter means.
fn letter_escape(letter: u8) -> Option<char>
    ensures { result ≡ letter_means letter }
{
    match letter {
        b'b' => Some('\u{8}'),
        b't' => Some('\t'),
        b'n' => Some('\n'),
        b'f' => Some('\u{c}'),
        b'r' => Some('\r'),
        b'"' => Some('"'),
        b'\\' => Some('\\'),
        _ => None,
    }
}

/// An escape of so many hexadecimal digits, its backslash at the place.
fn scalar_escape(text: &str, place: usize, digits: usize) -> Special
    requires inside { place + 2 ≤ length text.now }
    requires some { 0 < digits }
    ensures part { part_of result ≡ scalar_part digits text.now place }
    ensures border { EndsOnBorder text.now result }
{
    match scalar_at(text.as_bytes(), place + 2, digits) {
        Some(character) => Special::Escape(Some(character), place + 2 + digits),
        None => Special::Broken,
    }
}

/// The escape of white space up to the next other character, its backslash at the place.
fn trimming_escape(text: &str, place: usize, quotes: Quotes) -> Special
    requires { IsCharBoundary text.now (place + 1) }
    ensures part { part_of result ≡ trimming_part (kind_of quotes) text.now place }
    ensures border { EndsOnBorder text.now result }
{
    let bytes = text.as_bytes();
    if quotes.is_long() && line_end(bytes, after_blanks(bytes, place + 1)).is_some() {
        Special::Escape(None, after_white(bytes, place + 1))
    } else {
        Special::Broken
    }
}

/// The escape whose backslash is at a place.
fn escape_at(text: &str, place: usize, quotes: Quotes) -> Special
    requires { IsCharBoundary text.now (place + 1) }
    ensures part { part_of result ≡ escape_part (kind_of quotes) text.now place }
    ensures border { EndsOnBorder text.now result }
{
    match text.as_bytes().get(place + 1) {
        Some(letter) => escape_by(text, place, quotes, *letter),
        None => Special::Broken,
    }
}

/// The escape whose backslash is at a place before a byte.
fn escape_by(text: &str, place: usize, quotes: Quotes, letter: u8) -> Special
    requires border { IsCharBoundary text.now (place + 1) }
    requires there { slice_get text.now (place + 1) ≡ Some letter }
    ensures part { part_of result ≡ escape_of (kind_of quotes) text.now place letter }
    ensures border { EndsOnBorder text.now result }
{
    if letter == b'u' {
        scalar_escape(text, place, 4)
    } else if letter == b'U' {
        scalar_escape(text, place, 8)
    } else {
        match letter_escape(letter) {
            Some(character) => Special::Escape(Some(character), place + 2),
            None => trimming_escape(text, place, quotes),
        }
    }
}

/// What is at a place where no plain byte does.
fn special_at(text: &str, place: usize, quotes: Quotes) -> Special
    requires inside { place ≤ length text.now }
    requires special { plain (part_from (kind_of quotes) text.now place) ≡ false }
    ensures part { part_of result ≡ part_from (kind_of quotes) text.now place }
    ensures goes { GoesOn text.now place result }
{
    let bytes = text.as_bytes();
    if stands(bytes, place, quotes.mark()) {
        mark_at(bytes, place, quotes)
    } else if quotes.has_escapes() && stands(bytes, place, b'\\') {
        escape_at(text, place, quotes)
    } else {
        Special::Broken
    }
}

/// What the mark at a place is, which does not belong to the string.
fn mark_at(text: &[u8], place: usize, quotes: Quotes) -> Special
    requires inside { place < length text.now }
    requires special { plain (mark_part (kind_of quotes) text.now place) ≡ false }
    ensures part { part_of result ≡ mark_part (kind_of quotes) text.now place }
    ensures closes { ClosesWithin text.now result }
{
    if quotes.is_long() {
        if marks_at(text, place, quotes.mark()) == 3 {
            Special::Closing(place + 3)
        } else {
            Special::Broken
        }
    } else {
        Special::Closing(place + 1)
    }
}

/// What is wrong with an escape of so many digits.
fn scalar_fault(text: &str, place: usize, digits: usize) -> SyntaxError
    requires { place + 2 ≤ length text.now }
    ensures { result ≡ fault_of_scalar digits text.now place }
{
    let found = digits_at(text.as_bytes(), place + 2, digits);
    let end = place + 2 + found;
    if found == digits {
        fault_at(SyntaxReason::InvalidEscape, place, end)
    } else if end < text.len() {
        fault_at(SyntaxReason::InvalidEscape, place, char_end(text, end))
    } else {
        stuck(text, text.len())
    }
}

/// What is wrong with the escape whose backslash is at a place.
fn escape_fault(text: &str, place: usize, quotes: Quotes) -> SyntaxError
    requires { place < length text.now }
    ensures { result ≡ fault_of_escape (kind_of quotes) text.now place }
{
    let bytes = text.as_bytes();
    let next = place + 1;
    if stands(bytes, next, b'u') {
        scalar_fault(text, place, 4)
    } else if stands(bytes, next, b'U') {
        scalar_fault(text, place, 8)
    } else if next == text.len() || (quotes.is_long() && after_blanks(bytes, next) == text.len()) {
        stuck(text, text.len())
    } else {
        fault_at(SyntaxReason::InvalidEscape, place, char_end(text, next))
    }
}

/// What breaks a string at a place.
fn part_fault(text: &str, place: usize, quotes: Quotes) -> SyntaxError
    requires { place ≤ length text.now }
    ensures { result ≡ fault_of_part (kind_of quotes) text.now place }
{
    let bytes = text.as_bytes();
    if stands(bytes, place, quotes.mark()) {
        stuck(text, place + 5)
    } else if quotes.has_escapes() && stands(bytes, place, b'\\') {
        escape_fault(text, place, quotes)
    } else if place < text.len() {
        control_character(text, place)
    } else {
        stuck(text, place)
    }
}

/// The string whose opening mark is at a place, its span between the delimiters, and the place behind it.
pub fn read_string(
    alloc: Global,
    text: &str,
    place: usize,
) -> Result<(Str<'_>, Span, usize), TomlError>
    requires { place ≤ length text.now }
    ensures answer { AnswersToml (λ found. found) (string_at text.now place) result }
    ensures within { IfOk result (λ found. found.2 ≤ length text.now) }
{
    match opening(text.as_bytes(), place) {
        Some((quotes, first)) => read_body(alloc, text, quotes, first),
        None => Err(TomlError::Syntax(stuck(text, place))),
    }
}

/// A string from its first piece on.
fn read_body(
    alloc: Global,
    text: &str,
    quotes: Quotes,
    first: usize,
) -> Result<(Str<'_>, Span, usize), TomlError>
    requires { IsCharBoundary text.now first }
    ensures answer { AnswersToml (λ found. found) (string_from text.now (kind_of quotes, first)) result }
    ensures within { IfOk result (λ found. found.2 ≤ length text.now) }
{
    let end = plain_end(text, first, quotes);
    match special_at(text, end, quotes) {
        Special::Closing(next) => Ok((
            plain_string(&text[first..end]),
            Span { start: first, end },
            next,
        )),
        Special::Escape(meaning, next) => {
            let mut held = String::new(alloc);
            held.push_str(&text[first..end])?;
            push_meaning(&mut held, meaning)?;
            read_escaped(text, quotes, first, held, next)
        }
        Special::Broken => Err(TomlError::Syntax(part_fault(text, end, quotes))),
    }
}

/// Appends what an escape means.
fn push_meaning(held: &mut String, meaning: Option<char>) -> Result<(), AllocError>
    ensures { OnOk result (string_bytes held.new ≡ string_bytes held.old ++ meaning_of meaning) }
{
    match meaning {
        Some(character) => held.push(character),
        None => Ok(()),
    }
}

/// The rest of a string with an escape, what was read so far being held.
fn read_escaped<'de>(
    text: &'de str,
    quotes: Quotes,
    first: usize,
    held: String,
    place: usize,
) -> Result<(Str<'de>, Span, usize), TomlError>
    requires border { IsCharBoundary text.now place }
    requires left { IsStringRead (kind_of quotes) text.now first (string_bytes held) true place }
    ensures answer { AnswersToml (λ found. found) (string_from text.now (kind_of quotes, first)) result }
    ensures within { IfOk result (λ found. found.2 ≤ length text.now) }
{
    let mut held = held;
    let mut place = place;
    'parts: loop {
        let end = plain_end(text, place, quotes);
        held.push_str(&text[place..end])?;
        match special_at(text, end, quotes) {
            Special::Closing(next) => {
                return Ok((
                    escaped_string(Text::from(held)),
                    Span { start: first, end },
                    next,
                ));
            }
            Special::Escape(meaning, next) => {
                push_meaning(&mut held, meaning)?;
                place = next;
            }
            Special::Broken => return Err(TomlError::Syntax(part_fault(text, end, quotes))),
        }
    }
}
