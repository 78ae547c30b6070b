//! Texts of licensees and terms, and pairs of them.
ghost use Rattle.std.specs.Prelude.{◌≡◌, ◌<◌};

use crate::texts::Spdx;
use deny_text::{Span, Steps};
use spdx_core::{Expression, Table};
use spdx_terms::families::FamilyIndex;
use spdx_terms::{ExprError, LicenseReq, Licensee, ParseMode};
use std::alloc::Global;
use std::cmp::Ordering;
use std::marker::Brand;
use std::sync::ledger::{Blank, Ledger};
use tests_files::{AnswerText, Asked, Shown, Told, let_go};

const NAMED: ParseMode = ParseMode {
    allow_deprecated: true,
    ..ParseMode::STRICT
};

/// Puts what a text or a pair is in a group.
pub fn put(asked: &Asked<'_>, out: &mut AnswerText) -> Told {
    let (alloc, text) = (asked.alloc, asked.text);
    let (one, other) = pair_of(text);
    match asked.group {
        "licensee" => out.made::<Spdx, _, _>(licensee(alloc, text, ParseMode::LAX)),
        "named licensee" => out.made::<Spdx, _, _>(licensee(alloc, text, NAMED)),
        "printed" => out.tried::<Spdx, _>(term(alloc, text).zip(named(alloc, text))),
        "satisfies" => {
            out.tried::<Spdx, _>(named(alloc, one).zip(term(alloc, other)));
            out.put(" ");
            out.tried::<Spdx, _>(named(alloc, other).zip(term(alloc, one)));
        }
        "order" => out.tried::<Spdx, _>(named(alloc, one).zip(named(alloc, other))),
        "places of a family" => out.tried::<Spdx, _>(index_of(alloc, one).zip(term(alloc, other))),
        _ => return Told::NoSuchGroup,
    }
    Told::Answer
}

/// The two texts of a pair.
pub fn pair_of(text: &str) -> (&str, &str) {
    text.split_once(" | ").unwrap_or((text, ""))
}

fn licensee(alloc: Global, text: &str, mode: ParseMode) -> Result<Licensee, ExprError> {
    Licensee::parse_mode(alloc, text, mode, &Table)
}

fn named(alloc: Global, text: &str) -> Option<Licensee> {
    licensee(alloc, text, NAMED).ok()
}

/// An expression that is one term.
fn term(alloc: Global, text: &str) -> Option<Expression> {
    Expression::parse_mode(alloc, text, ParseMode::LAX, &Table).ok()
}

/// The index of some licences, or of none.
fn index_of(alloc: Global, names: &str) -> Option<FamilyIndex> {
    let mut index = FamilyIndex::new(alloc);
    if names == "none" || names.split(' ').all(|name| push(alloc, &mut index, name)) {
        Some(index)
    } else {
        let_go(index);
        None
    }
}

/// Appends a licence, and returns whether it could be.
fn push(alloc: Global, index: &mut FamilyIndex, name: &str) -> bool {
    match licensee(alloc, name, ParseMode::LAX) {
        Ok(licensee) => {
            let pushed = index.push(&licensee);
            let_go(licensee);
            pushed.is_ok()
        }
        Err(_) => false,
    }
}

pub fn put_span(out: &mut AnswerText, span: Span) {
    write!(out, " {} {}", span.start, span.end);
}

/// The reason and the place of a fault.
impl Shown<Spdx> for ExprError {
    fn put(&self, out: &mut AnswerText) {
        match self {
            ExprError::Parse(fault) => {
                write!(out, "{}", fault.reason);
                put_span(out, fault.span);
            }
            ExprError::Memory => out.want_memory(),
        }
    }
}

impl Shown<Spdx> for Licensee {
    fn put(&self, out: &mut AnswerText) {
        write!(out, "{self}");
    }
}

/// A term, and the licensee of the same text.
impl Shown<Spdx> for (Expression, Licensee) {
    fn put(&self, out: &mut AnswerText) {
        for term in self.0.requirements() {
            write!(out, "{} | {}", term.req, self.1);
        }
    }
}

/// Whether a licensee satisfies a term.
impl Shown<Spdx> for (Licensee, Expression) {
    fn put(&self, out: &mut AnswerText) {
        for term in self.1.requirements() {
            let is_satisfied = satisfied(&self.0, &term.req);
            out.put(if is_satisfied { "yes" } else { "no" });
        }
    }
}

/// How a licensee compares to another.
impl Shown<Spdx> for (Licensee, Licensee) {
    fn put(&self, out: &mut AnswerText) {
        out.put(match self.0.cmp(&self.1) {
            Ordering::Less => "less",
            Ordering::Equal => "equal",
            Ordering::Greater => "greater",
        });
    }
}

/// The places at which the family of a term is among some licences.
impl Shown<Spdx> for (FamilyIndex, Expression) {
    fn put(&self, out: &mut AnswerText) {
        for term in self.1.requirements() {
            let places = self.0.places(term.req.family());
            out.put(if places.is_empty() { "none" } else { "" });
            out.each::<Spdx, _>(" ", places);
        }
    }
}

fn is_satisfied<L: Ledger>(licensee: &Licensee, term: &LicenseReq, ledger: Blank) -> bool
    requires name { ledger.name ≡ L.name }
    requires parts { ledger.parts ≡ L.parts }
    requires some { 0 < ledger.parts }
{
    let mut steps = Steps::<L>::new(ledger);
    licensee.satisfies(term, &mut steps)
}

/// The same, with its steps counted in a ledger of its own.
fn satisfied(licensee: &Licensee, term: &LicenseReq) -> bool {
    is_satisfied::<Brand>(licensee, term, Blank::new(1))
}
