//! Texts as expressions, how these are printed, and the certificates of their verdicts.
use crate::terms::{pair_of, put_span};
use crate::texts::Spdx;
use spdx_core::certificates::{Hit, Verdict, certificate};
use spdx_core::{ExprError, ExprNode, Expression, ParseMode, Table};
use spdx_printed::printed;
use std::alloc::{AllocError, Global};
use tests_files::{AnswerText, Asked, Shown, let_go};

/// What is made of an expression; behind a bar is what was found of its terms.
pub fn put(asked: &Asked<'_>, out: &mut AnswerText) {
    let (text, hits) = pair_of(asked.text);
    match read(asked, text) {
        Ok(read) => {
            put_read(asked, out, &read, hits);
            let_go(read);
        }
        Err(error) => error.put(out),
    }
}

fn read(asked: &Asked<'_>, text: &str) -> Result<Expression, ExprError> {
    let mode = match asked.group {
        "size" => return Expression::parse(asked.alloc, text, &Table),
        "strict" => ParseMode::STRICT,
        "lax" | "printed expression" => ParseMode::LAX,
        group => ParseMode {
            allow_imprecise_license_names: group == "imprecise",
            allow_slash_as_or_operator: group != "imprecise",
            ..ParseMode::STRICT
        },
    };
    Expression::parse_mode(asked.alloc, text, mode, &Table)
}

fn put_read(asked: &Asked<'_>, out: &mut AnswerText, read: &Expression, hits: &str) {
    let alloc = asked.alloc;
    match asked.group {
        "size" => put_size(out, read),
        "printed expression" => out.printed(printed(alloc, read)),
        "certificate" => match hits_of(alloc, hits) {
            Ok(hits) => out.made::<Spdx, _, _>(certificate(alloc, read, &hits)),
            Err(_) => out.want_memory(),
        },
        _ => out.made::<Spdx, _, _>(read.copy(alloc)),
    }
}

/// How many terms and nodes there are, and where the last term is.
fn put_size(out: &mut AnswerText, read: &Expression) {
    let terms = read.requirements();
    write!(out, "{} {}", terms.len(), read.nodes().len());
    if let Some(last) = terms.last() {
        put_span(out, last.span);
    }
}

/// The terms with their places, and the nodes.
impl Shown<Spdx> for Expression {
    fn put(&self, out: &mut AnswerText) {
        for term in self.requirements() {
            write!(out, "{}", term.req);
            put_span(out, term.span);
            out.put("; ");
        }
        for node in self.nodes() {
            match node {
                ExprNode::Term(place) => write!(out, "{place}"),
                ExprNode::And => out.put("&"),
                ExprNode::Or => out.put("|"),
            }
        }
    }
}

/// What was found of a term: the place of an allowed licence, two places for an exception, or nothing.
fn hit_of(word: &str) -> Option<Hit> {
    match word.split_once('/') {
        Some((exception, entry)) => Some(Hit::Exception {
            exception: exception.parse::<usize>().ok()?,
            entry: entry.parse::<usize>().ok()?,
        }),
        None => Some(Hit::Allowed(word.parse::<usize>().ok()?)),
    }
}

fn hits_of(alloc: Global, words: &str) -> Result<Vec<Option<Hit>>, AllocError> {
    words.split_whitespace().map(hit_of).collect(alloc)
}

impl Shown<Spdx> for usize {
    fn put(&self, out: &mut AnswerText) {
        write!(out, "{self}");
    }
}

impl Shown<Spdx> for Hit {
    fn put(&self, out: &mut AnswerText) {
        match self {
            Hit::Allowed(entry) => write!(out, "allowed {entry}"),
            Hit::Exception { exception, entry } => write!(out, "exception {exception} {entry}"),
        }
    }
}

/// Puts each item behind a blank, and a semicolon.
fn put_list<T: Shown<Spdx>>(out: &mut AnswerText, items: &[T]) {
    for item in items {
        out.put(" ");
        item.put(out);
    }
    out.put(";");
}

/// A verdict with its certificate.
impl Shown<Spdx> for Verdict {
    fn put(&self, out: &mut AnswerText) {
        match self {
            Verdict::Skipped => out.put("skipped"),
            Verdict::Unlicensed => out.put("unlicensed"),
            Verdict::Accepted { choice, hits } => {
                out.put("accepted");
                put_list(out, choice.items());
                put_list(out, hits.items());
            }
            Verdict::Rejected { least, blocks } => {
                out.put("rejected");
                put_list(out, least.items());
                put_list(out, blocks.items());
            }
        }
    }
}
