//! The labels of an expression: the whole, and then each term.
//! Called by `judged` of `told`; how a message is put together may change, the order of labels may not.
ghost use Rattle.std.specs.Prelude.{◌≡◌, ◌++◌, IfOk, OnOk, All, length};
ghost use Rattle.spdx_core.specs.certificates.Certificates as certificates;
ghost use Rattle.check_core.specs.findings.Findings as spec;
ghost use Rattle.check_core.specs.findings.Findings.{hit_text, verdict_labels};
ghost use Rattle.check_core.specs.findings.Places.{PlaceFits, TermFits};

use crate::findings::place::span_at;
use crate::findings::source::source_text;
use deny_text::Span;
use diag_core::{Label, Labels};
use gather_core::findings::LicenseExprInfo;
use spdx_core::certificates::Hit;
use spdx_core::{Expression, ExpressionReq};
use std::alloc::{AllocError, Global};
use std::fmt::Write;

/// What is said of a term, by what allows it.
fn said_of(hit: Option<Hit>) -> &'static str
    ensures { result.now ≡ hit_text hit }
{
    match hit {
        Some(Hit::Allowed(_)) => "accepted: license is explicitly allowed",
        Some(Hit::Exception { .. }) => "accepted: allowed by exception",
        None => "rejected: license is not explicitly allowed",
    }
}

/// The hit of a place; behind the end of the list there is none.
fn hit_at(hits: &[Option<Hit>], place: usize) -> Option<Hit>
    ensures { result ≡ certificates.hit_at hits.now place }
{
    match hits.get(place) {
        Some(hit) => *hit,
        None => None,
    }
}

fn term_label(
    alloc: Global,
    nfo: &LicenseExprInfo,
    term: &ExpressionReq,
    hit: Option<Hit>,
) -> Result<Label, AllocError>
    requires { TermFits nfo.now term.now }
    ensures { IfOk result (λ label. label ≡ spec.term_label nfo.now term.now.span hit) }
{
    let span = span_at(nfo, term.span);
    Label::primary(alloc, nfo.file_id, span).with_message(said_of(hit))
}

/// Appends a label of each term, in order.
fn push_terms(
    alloc: Global,
    labels: &mut Labels,
    nfo: &LicenseExprInfo,
    terms: &[ExpressionReq],
    hits: &[Option<Hit>],
) -> Result<(), AllocError>
    requires { All (TermFits nfo.now) terms.now }
    ensures { OnOk result (labels.new ≡ labels.old ++ spec.term_labels nfo.now terms.now hits.now) }
{
    'terms: for (place, term) in terms.iter().enumerate() {
        let hit = hit_at(hits, place);
        let label = term_label(alloc, nfo, term, hit)?;
        labels.push(label)?;
    }
    Ok(())
}

/// The bytes that the message of a whole expression has room for from the start.
const MESSAGE_ROOM: usize = 64;

fn whole_label(alloc: Global, nfo: &LicenseExprInfo, words: &str) -> Result<Label, AllocError>
    requires { PlaceFits nfo.now (length words.now) }
    ensures { IfOk result (λ label. label ≡ spec.whole_label nfo.now words.now) }
{
    let source = source_text(alloc, &nfo.source)?;
    let mut message = String::with_capacity(alloc, MESSAGE_ROOM)?;
    write!(message, "license expression retrieved via {source}")?;
    let whole = Span {
        start: 0,
        end: words.len(),
    };
    let span = span_at(nfo, whole);
    Label::secondary(alloc, nfo.file_id, span).with_message(message.as_str())
}

/// The labels of an expression, with what allows each of its terms.
pub(crate) fn labels(
    alloc: Global,
    expression: &Expression,
    nfo: &LicenseExprInfo,
    hits: &[Option<Hit>],
) -> Result<Labels, AllocError>
    requires { PlaceFits nfo.now (length expression.now.text) }
    ensures { IfOk result (λ labels. labels ≡ verdict_labels expression.now nfo.now hits.now) }
{
    let terms = expression.requirements();
    let mut labels = Labels::from(Vec::with_capacity(alloc, terms.len() + 1)?);
    let whole = whole_label(alloc, nfo, expression.as_ref())?;
    labels.push(whole)?;
    push_terms(alloc, &mut labels, nfo, terms, hits)?;
    Ok(labels)
}
