//! Fields, their places in manifests and in expressions with slashes, thresholds, and texts that are written in place of a manifest.
use crate::Check;
use deny_text::Span;
use diag_core::texts::{FileNote, Synthetic, TextPiece, correct_span, license_span};
use gather_core::cut_threshold;
use gather_license::expression::field;
use spdx_core::{Expression, Table};
use std::alloc::{AllocError, Global};
use tests_files::tree::{first_word, number_in};
use tests_files::{AnswerText, Asked, CaseEntry, Shown};

/// How many terms an expression has.
impl Shown<Check> for Expression {
    fn put(&self, out: &mut AnswerText) {
        write!(out, "{}", self.requirements().len());
    }
}

/// How many terms the expression of a field has; none, where it is no expression.
pub fn put_terms(alloc: Global, text: &str, out: &mut AnswerText) {
    out.made_or::<Check, _, _>(field(alloc, text, &Table), "0");
}

/// Where the first value of a field is in a manifest.
pub fn put_value(text: &str, out: &mut AnswerText) {
    match license_span(text) {
        Some(span) => write!(out, "{} {}", span.start, span.end),
        None => out.put("none"),
    }
}

/// A place, a text with slashes, and where the place leads back to.
pub fn put_place(words: &str, out: &mut AnswerText) {
    let (start, rest) = first_word(words);
    let (end, text) = first_word(rest);
    let mut span = Span {
        start: number_in(start),
        end: number_in(end),
    };
    correct_span(text, &mut span);
    write!(out, "{} {}", span.start, span.end);
}

/// The least score of a name that is joined, of a number of hundredths.
pub fn put_threshold(word: &str, out: &mut AnswerText) {
    match word.parse::<i64>() {
        Ok(hundredths) => write!(out, "{}", cut_threshold(hundredths)),
        Err(_) => out.cant_be_tried(),
    }
}

/// What is said of a licence file: how it was scanned, its hash in hex, its score in hundredths and its name.
fn note_of(words: &str) -> FileNote<'_> {
    let (how, rest) = first_word(words);
    let (hash, rest) = first_word(rest);
    let (score, name) = first_word(rest);
    let hash = u32::from_str_radix(hash, 16).unwrap_or(0);
    let score = score.parse::<u32>().unwrap_or(0);
    match how {
        "joined" => FileNote::Joined { hash },
        "unknown" => FileNote::Unknown { hash, score, name },
        "low" => FileNote::Low { hash, score, name },
        "unnamed" => FileNote::Unnamed { hash, score },
        _ => FileNote::Bad { words },
    }
}

/// Writes what an entry names.
fn write_entry(alloc: Global, text: &mut Synthetic, entry: &CaseEntry) -> Result<(), AllocError> {
    let (first, rest) = first_word(entry.word());
    let piece = entry.below();
    match entry.key() {
        "plain" => text.write(TextPiece::Plain(piece)),
        "marked" => text.write(TextPiece::Marked(piece)),
        "package" => {
            let (version, field) = first_word(rest);
            text.write_manifest(first, version, field)
        }
        "files-expr" => text.write_expression(entry.word()),
        "open-list" => text.open_list(),
        "line" => text.write_line(alloc, first, note_of(rest)),
        "close-list" => text.close_list(),
        _ => Ok(()),
    }
}

/// The places that were kept in a text, or what they cut out.
fn put_spans(out: &mut AnswerText, text: &Synthetic, is_cut: bool) {
    for span in text.spans() {
        if is_cut {
            let cut = text.text().get(span.start..span.end);
            write!(out, "`{}`\n", cut.unwrap_or("no place"));
        } else {
            write!(out, "{}..{}\n", span.start, span.end);
        }
    }
}

/// The text that the entries of a case write, the places that were kept in it, or what these cut out.
pub fn put_written(asked: &Asked<'_>, out: &mut AnswerText) {
    let mut text = Synthetic::new(asked.alloc);
    for entry in asked.case.own {
        out.needs(write_entry(asked.alloc, &mut text, entry));
    }
    match asked.group {
        "text" => out.put(text.text()),
        key => put_spans(out, &text, key == "cuts"),
    }
}
