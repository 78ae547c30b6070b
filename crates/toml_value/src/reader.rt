//! Texts, line by line.
ghost use Rattle.std.specs.Prelude.{◌≡◌, ◌+◌, ◌-◌, ◌<◌, ◌≤◌, Option, length, IsTrue, IfOk};
ghost use Rattle.toml_subset.specs.Answer.{AnswersToml, AnswersSyntax, then_read, fault_or};
ghost use Rattle.toml_subset.specs.Bytes.{open_bracket};
ghost use Rattle.toml_subset.specs.Data.{Toml};
ghost use Rattle.toml_subset.specs.Faults.{IsFirstFault};
ghost use Rattle.toml_subset.specs.Lines.{Document as DocumentOf};
ghost use Rattle.toml_subset.specs.Places.{stands as stands_at};
ghost use Rattle.toml_subset.specs.Reading.{is_blank_line as blank_line_at, line_rest as rest_of_line};
ghost use Rattle.toml_subset.specs.Reading.{line_from, value_at, pair_put, pair_from, with_root, header_from};
ghost use Rattle.toml_subset.specs.Reading.{array_header_from, root_value as whole_text, read_text};
ghost use Rattle.toml_subset.specs.StringReading.{read_left as left_at};
ghost use Rattle.toml_subset.specs.Tables.{Branches};
ghost use Rattle.toml_subset.specs.declared.error.SyntaxError.{SyntaxError as SyntaxErrorOf};
ghost use Rattle.toml_subset.specs.Text.{IsText};
ghost use Rattle.toml_subset.specs.frames.Levels.{IsWay, IsOpened, at_root, into_header};
ghost use Rattle.toml_subset.specs.frames.LinesRead.{bracket_line};
ghost use Rattle.toml_subset.specs.text_laws.Placed.{IsPlaced};
ghost use Rattle.toml_value.specs.LevelViews.{cursor_view, pending_view, IsShallowCursor, IsLineRead};
ghost use Rattle.toml_value.specs.ReaderViews.{OnSyntax};
ghost use Rattle.toml_value.specs.Views.{value_view};

use crate::tree::{Document, Pending};
use crate::value::{Value, ValueInner};
use crate::values::read_value;
use deny_text::Span;
use std::alloc::{AllocError, Global};
use toml_subset::frames::HeaderPart;
use toml_subset::{
    Keys, SyntaxError, TomlError, after_blanks, after_comment, control_character, next_line,
    read_keys, read_left, stands, stuck,
};

/// A document, and the place of the next line.
type NextLine<'de> = Result<(Document<'de>, usize), TomlError>;

/// Whether a line without a statement is at a place behind its blanks.
fn is_blank_line(text: &[u8], place: usize) -> bool
    requires { place ≤ length text.now }
    ensures { result ≡ blank_line_at text.now place }
{
    place == text.len()
        || stands(text, place, b'#')
        || stands(text, place, b'\n')
        || (stands(text, place, b'\r') && stands(text, place + 1, b'\n'))
}

/// The place of the next line, nothing but blanks and a comment standing before this one's end.
fn line_rest(text: &str, place: usize) -> Result<usize, SyntaxError>
    requires { place ≤ length text.now }
    ensures answer { (document : DocumentOf)
        → AnswersSyntax (λ next. (document, next)) (rest_of_line text.now place document) result }
    ensures within { IfOk result (λ next. next ≤ length text.now) }
{
    let bytes = text.as_bytes();
    if let Some(next) = next_line(bytes, place) {
        return Ok(next);
    }
    let blanks = after_blanks(bytes, place);
    let end = after_comment(bytes, blanks);
    if stands(bytes, blanks, b'#') {
        Err(control_character(text, end))
    } else {
        Err(stuck(text, end))
    }
}

/// A line whose statement was put into the document, from behind the statement on.
fn ended_line<'de>(text: &'de str, document: Document<'de>, place: usize) -> NextLine<'de>
    requires inside { place ≤ length text.now }
    ensures answer { (seen : DocumentOf) → IsWay seen (cursor_view document.entry)
        → IsLineRead (rest_of_line text.now place seen) result }
    ensures within { IfOk result (λ found. found.1 ≤ length text.now) }
{
    match line_rest(text, place) {
        Ok(next) => Ok((document, next)),
        Err(fault) => {
            document.let_go();
            Err(TomlError::Syntax(fault))
        }
    }
}

/// A key whose `=` was read, the value standing at a place.
fn behind_equals<'de>(
    alloc: Global,
    text: &'de str,
    pending: Pending<'de>,
    place: usize,
) -> NextLine<'de>
    requires inside { place ≤ length text.now }
    ensures answer { let keys = pending.entry.awaiting.keys in
        let above = pending.entry.above + (length keys - 1) in
        (seen : DocumentOf) → IsWay seen (pending_view pending.entry)
        → IsLineRead (then_read (pair_put text.now keys seen) (value_at text.now above place)) result }
    ensures within { IfOk result (λ found. found.1 ≤ length text.now) }
{
    match read_value(alloc, text, pending.inside(), place) {
        Ok((value, next)) => {
            let document = pending.put(alloc, value)?;
            ended_line(text, document, next)
        }
        Err(error) => {
            pending.let_go();
            Err(error)
        }
    }
}

/// A line with a key and a value.
fn pair_line<'de>(
    alloc: Global,
    text: &'de str,
    document: Document<'de>,
    place: usize,
) -> NextLine<'de>
    requires inside { place ≤ length text.now }
    requires shallow { IsShallowCursor (cursor_view document) }
    ensures answer { (seen : DocumentOf) → IsWay seen (cursor_view document.entry)
        → IsLineRead (then_read (pair_from text.now seen) (left_at text.now place)) result }
    ensures within { IfOk result (λ found. found.1 ≤ length text.now) }
{
    match read_left(alloc, text, place) {
        Ok((keys, value)) => match document.await_value(keys) {
            Ok(pending) => behind_equals(alloc, text, pending, value),
            Err(fault) => Err(TomlError::Syntax(fault)),
        },
        Err(error) => {
            document.let_go();
            Err(error)
        }
    }
}

/// A header whose last bracket was read, from behind it on.
fn opened_line<'de>(
    alloc: Global,
    text: &'de str,
    document: Document<'de>,
    keys: Keys<'de>,
    last: HeaderPart,
    place: usize,
) -> NextLine<'de>
    requires inside { place ≤ length text.now }
    requires some { 0 < length keys }
    requires shallow { IsShallowCursor (at_root (cursor_view document)) }
    ensures answer { (fault : Option SyntaxErrorOf) (made : Option Branches)
        → IsOpened fault made keys.entry (into_header last keys.entry (cursor_view document.entry))
        → IsLineRead (fault_or fault (with_root text.now place keys.entry made)) result }
    ensures within { IfOk result (λ found. found.1 ≤ length text.now) }
{
    match document.with_header(alloc, keys, last) {
        Ok(document) => ended_line(text, document, place),
        Err(error) => Err(error),
    }
}

/// Lets a document and the key of a header go.
fn let_go(document: Document<'_>, _keys: Keys<'_>) {
    document.let_go();
}

/// A header, from behind the parts of its key on.
fn behind_parts<'de>(
    alloc: Global,
    text: &'de str,
    document: Document<'de>,
    start: usize,
    keys: Keys<'de>,
    place: usize,
) -> NextLine<'de>
    requires inside { place ≤ length text.now }
    requires some { 0 < length keys }
    requires shallow { IsShallowCursor (at_root (cursor_view document)) }
    ensures answer { (seen : DocumentOf) → IsWay seen (cursor_view document.entry)
        → IsLineRead (header_from text.now start seen (keys.entry, place)) result }
    ensures within { IfOk result (λ found. found.1 ≤ length text.now) }
{
    let bytes = text.as_bytes();
    let close = after_blanks(bytes, place);
    if !stands(bytes, close, b']') {
        let_go(document, keys);
        return Err(TomlError::Syntax(stuck(text, close)));
    }
    let end = close + 1;
    opened_line(
        alloc,
        text,
        document,
        keys,
        HeaderPart::Table(Span { start, end }),
        end,
    )
}

/// An array header, from behind the parts of its key on.
fn behind_array_parts<'de>(
    alloc: Global,
    text: &'de str,
    document: Document<'de>,
    start: usize,
    keys: Keys<'de>,
    place: usize,
) -> NextLine<'de>
    requires inside { place ≤ length text.now }
    requires some { 0 < length keys }
    requires shallow { IsShallowCursor (at_root (cursor_view document)) }
    ensures answer { (seen : DocumentOf) → IsWay seen (cursor_view document.entry)
        → IsLineRead (array_header_from text.now start seen (keys.entry, place)) result }
    ensures within { IfOk result (λ found. found.1 ≤ length text.now) }
{
    let bytes = text.as_bytes();
    let close = after_blanks(bytes, place);
    if !stands(bytes, close, b']') {
        let_go(document, keys);
        return Err(TomlError::Syntax(stuck(text, close)));
    }
    if !stands(bytes, close + 1, b']') {
        let_go(document, keys);
        return Err(TomlError::Syntax(stuck(text, close + 1)));
    }
    let end = close + 2;
    opened_line(
        alloc,
        text,
        document,
        keys,
        HeaderPart::Array(Span { start, end }),
        end,
    )
}

/// A header or an array header, whose first bracket is at a place.
fn header_line<'de>(
    alloc: Global,
    text: &'de str,
    document: Document<'de>,
    place: usize,
) -> NextLine<'de>
    requires bracket { IsTrue (stands_at text.now place open_bracket) }
    requires shallow { IsShallowCursor (at_root (cursor_view document)) }
    ensures answer { (seen : DocumentOf) → IsWay seen (cursor_view document.entry)
        → IsLineRead (bracket_line text.now seen place) result }
    ensures within { IfOk result (λ found. found.1 ≤ length text.now) }
{
    let bytes = text.as_bytes();
    if stands(bytes, place + 1, b'[') {
        match read_keys(alloc, text, after_blanks(bytes, place + 2)) {
            Ok((keys, end)) => behind_array_parts(alloc, text, document, place, keys, end),
            Err(error) => {
                document.let_go();
                Err(error)
            }
        }
    } else {
        match read_keys(alloc, text, after_blanks(bytes, place + 1)) {
            Ok((keys, end)) => behind_parts(alloc, text, document, place, keys, end),
            Err(error) => {
                document.let_go();
                Err(error)
            }
        }
    }
}

/// A line, what it says standing at a place behind its blanks.
fn read_line<'de>(
    alloc: Global,
    text: &'de str,
    document: Document<'de>,
    place: usize,
) -> NextLine<'de>
    requires inside { place ≤ length text.now }
    requires shallow { IsShallowCursor (cursor_view document) }
    requires root { IsShallowCursor (at_root (cursor_view document)) }
    ensures answer { (seen : DocumentOf) → IsWay seen (cursor_view document.entry)
        → IsLineRead (line_from text.now seen place) result }
    ensures within { IfOk result (λ found. found.1 ≤ length text.now) }
{
    let bytes = text.as_bytes();
    if is_blank_line(bytes, place) {
        ended_line(text, document, place)
    } else if stands(bytes, place, b'[') {
        header_line(alloc, text, document, place)
    } else {
        pair_line(alloc, text, document, place)
    }
}

/// The value of a text whose lines made a document.
fn whole<'de>(
    alloc: Global,
    text: &'de str,
    document: Document<'de>,
) -> Result<Value<'de>, AllocError>
    ensures { (seen : DocumentOf) → IsWay seen (cursor_view document.entry)
        → IfOk result (λ value. value_view value ≡ whole_text text.now seen) }
{
    let entries = document.into_entries(alloc)?;
    let span = Span {
        start: 0,
        end: text.len(),
    };
    Ok(Value::new(ValueInner::Table(entries), span))
}

/// Reads a text of the subset. Its value's strings and keys without escapes borrow the text.
pub fn parse(alloc: Global, text: &str) -> Result<Value<'_>, TomlError>
    ensures answer { AnswersToml (λ value. value_view value) (read_text text.now) result }
    ensures value { IfOk result (λ value. IsText text.now (value_view value)) }
    ensures spans { IfOk result (λ value. IsPlaced text.now (value_view value)) }
    ensures outside { OnSyntax result (λ fault. (value : Toml) → IsText text.now value → ⊥) }
    ensures place { OnSyntax result (λ fault. IsFirstFault text.now fault) }
{
    let bytes = text.as_bytes();
    let mut document = Document::new(alloc);
    let mut place = 0;
    'lines: while place < text.len() {
        match read_line(alloc, text, document, after_blanks(bytes, place)) {
            Ok((further, next)) => {
                document = further;
                place = next;
            }
            Err(error) => return Err(error),
        }
    }
    let value = whole(alloc, text, document)?;
    Ok(value)
}
