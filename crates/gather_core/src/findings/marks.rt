//! The places that a synthetic manifest marks.
ghost use Rattle.std.specs.Prelude.{◌≡◌, ◌<◌, ◌^◌, IfSome, drop, slice_get};
ghost use Rattle.gather_core.specs.findings.Findings as spec;
ghost use Rattle.gather_core.specs.findings.Findings.{joined_mark, mark_coord, name_mark};

use deny_text::Span;
use diag_core::{Coord, FileId};
use std::marker::Model;

/// Where a synthetic manifest writes what is marked in it, in order: the name, the field, the expression of
/// joined names where there is one, and what failed.
#[derive(Drop)]
pub(crate) struct Marks {
    file: FileId,
    spans: Vec<Span>,
}

impl Model for Marks {
    ghost use Rattle.gather_core.specs.findings.Findings.{MarksView};

    ghost Value = { MarksView };

    ghost view = { λ m. record { file = m.file; spans = m.spans.items } };
}

/// The place of that number, where there is one.
#[tactic(auto, using(std::proofs::lemmas::Option::slice_get_past))]
pub(crate) fn span_at(spans: &[Span], place: usize) -> Option<Span>
    ensures { result ≡ slice_get spans.now place }
{
    match spans.get(place) {
        Some(span) => Some(*span),
        None => None,
    }
}

/// A place in a file; its end is a place of 64 bits.
fn coord(file: FileId, span: Span) -> Coord
    ensures at { result ≡ record { file = file; span = span } }
    ensures fits { span.end < 2 ^ 64 }
{
    Coord { file, span }
}

impl Marks {
    pub(crate) fn new(file: FileId, spans: Vec<Span>) -> Marks
        ensures { result ≡ record { file = file; spans = spans.items } }
    {
        Marks { file, spans }
    }

    fn at(&self, place: usize) -> Option<Coord>
        ensures mark { result ≡ mark_coord self.now place }
        ensures fits { IfSome result (λ at. at.span.end < 2 ^ 64) }
    {
        match span_at(&self.spans, place) {
            Some(span) => Some(coord(self.file, span)),
            None => None,
        }
    }

    pub(crate) fn file(&self) -> FileId
        ensures { result ≡ self.now.file }
    {
        self.file
    }

    pub(crate) fn name(&self) -> Option<Coord>
        ensures { result ≡ name_mark self.now }
    {
        self.at(0)
    }

    pub(crate) fn field(&self) -> Option<Coord>
        ensures mark { result ≡ spec.field_mark self.now }
        ensures fits { IfSome result (λ at. at.span.end < 2 ^ 64) }
    {
        self.at(1)
    }

    pub(crate) fn joined(&self) -> Option<Coord>
        ensures { result ≡ joined_mark self.now }
    {
        self.at(2)
    }

    /// The places behind so many of them.
    pub(crate) fn behind(&self, count: usize) -> &[Span]
        ensures { result.now ≡ drop count self.now.spans }
    {
        if count <= self.spans.len() {
            &self.spans[count..]
        } else {
            &[]
        }
    }
}
