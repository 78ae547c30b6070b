//! What is at a place of a text: numbers, strings, keys, values, blanks, comments and commas.
ghost use Rattle.std.specs.Prelude.{◌≤◌, length};

use crate::Toml;
use crate::printed::{DEPTH, put_seen, put_value};
use crate::specs::put_specs;
use deny_text::Span;
use tests_files::{AnswerText, Asked, Shown, let_go};
use toml_subset::frames::{
    Scalar, behind_entry, behind_item, entry_place, item_place, read_scalar,
};
use toml_subset::{
    Keys, Number, Str, after_blanks, after_comment, after_white, char_end, classify, line_end,
    next_line, read_keys, read_left, read_number, read_string, space_from,
};
use toml_value::read_value;

/// A text and the place behind its bar; the whole text and its start where no place is there.
fn placed(text: &str) -> (&str, usize)
    ensures { result.1 ≤ length result.0.now }
{
    let (front, place) = text.split_once(" | ").unwrap_or((text, ""));
    match place.parse::<usize>() {
        Ok(place) if place <= front.len() => (front, place),
        _ => (text, 0),
    }
}

/// Puts what a group reads at a place, and returns whether there is such a group.
pub fn put(asked: &Asked<'_>, out: &mut AnswerText) -> bool {
    let alloc = asked.alloc;
    let (text, place) = placed(asked.text);
    match asked.group {
        "numbers" => write!(out, "{:?}", classify(text.as_bytes())),
        "numbers in a text" => match read_number(text, place) {
            Ok((number, end)) => write!(out, "{number:?} to {end}"),
            Err(fault) => fault.put(out),
        },
        "keys" => out.made::<Toml, _, _>(read_keys(alloc, text, place)),
        "keys before a value" => out.made::<Toml, _, _>(read_left(alloc, text, place)),
        "strings" => out.made::<Toml, _, _>(read_string(alloc, text, place)),
        "scalars" => out.made::<Toml, _, _>(read_scalar(alloc, text, place)),
        "values" | "values with faults" => put_read(asked, out, asked.text, Some(DEPTH)),
        "deep values" => put_read(asked, out, asked.text, Some(0)),
        "behind the opening of an array" => put_seen(out, item_place(text, place)),
        "behind an item" => put_seen(out, behind_item(text, place)),
        "behind the opening of an inline table" => write!(out, "{:?}", entry_place(text, place)),
        "behind an entry" => put_seen(out, behind_entry(text, place)),
        _ => return put_scanned(asked, out),
    }
    true
}

/// The place that a scanner comes to from a place. Returns whether there is such a scanner.
fn put_scanned(asked: &Asked<'_>, out: &mut AnswerText) -> bool {
    let (text, place) = placed(asked.text);
    let bytes = text.as_bytes();
    let found = match asked.group {
        "behind blanks" => Some(after_blanks(bytes, place)),
        "behind a comment" => Some(after_comment(bytes, place)),
        "behind a line end" => line_end(bytes, place),
        "the next line" => next_line(bytes, place),
        "behind blanks, line ends and comments" => Some(space_from(bytes, place).end),
        "behind blanks and line ends" => Some(after_white(bytes, place)),
        "behind a character" if place < text.len() => Some(char_end(text, place)),
        _ => return false,
    };
    write!(out, "{found:?}");
    true
}

impl Shown<Toml> for (Keys<'_>, usize) {
    fn put(&self, out: &mut AnswerText) {
        out.each::<Toml, _>("", self.0.items());
        write!(out, "to {}", self.1);
    }
}

/// A string, and its place.
impl Shown<Toml> for (Str<'_>, Span, usize) {
    fn put(&self, out: &mut AnswerText) {
        self.0.put(out);
        out.put_span("@", self.1);
    }
}

/// A scalar, its place, and the place behind it.
impl Shown<Toml> for (Scalar<'_>, Span, usize) {
    fn put(&self, out: &mut AnswerText) {
        match &self.0 {
            Scalar::String(string) => string.put(out),
            Scalar::Number(Number::Integer(number)) => write!(out, "{number}"),
            Scalar::Number(Number::Decimal(number)) => write!(out, "{number}/100"),
            Scalar::Boolean(value) => write!(out, "{value}"),
        }
        out.put_span("@", self.1);
        write!(out, " to {}", self.2);
    }
}

/// The value at a place down to a depth, and the place behind it; without a depth what a group reads of it as specs.
pub fn put_read(asked: &Asked<'_>, out: &mut AnswerText, text: &str, depth: Option<u32>) {
    let (text, place) = placed(text);
    match read_value(asked.alloc, text, 0, place) {
        Ok((mut value, next)) => {
            match depth {
                Some(depth) => {
                    put_value(asked.alloc, out, depth, &mut value);
                    write!(out, " to {next}");
                }
                None => put_specs(asked, out, &mut value),
            }
            let_go(value);
        }
        Err(error) => error.put(out),
    }
}
