//! The place of a field in the text of a manifest.
ghost use Rattle.std.specs.Prelude.{◌≡◌, ◌≤◌, length, IfSome};
ghost use Rattle.std.specs.Str.{bytes_eq};
ghost use Rattle.diag_core.specs.texts.Synthetic.{text_at};
ghost use Rattle.diag_core.specs.Kept.{IsFound};
ghost use Rattle.gather_license.specs.location.Location as spec;
ghost use Rattle.gather_license.specs.location.Location.{CutsOut};

use deny_text::Span;
use diag_core::texts::license_span;

/// Whether a place of a text cuts out a field.
fn cuts_out(text: &str, span: Span, field: &str) -> bool
    requires ordered { span.start ≤ span.end }
    requires inside { span.end ≤ length text.now }
    ensures { result ≡ bytes_eq (text_at text.now span) field.now }
{
    let there = &text.as_bytes()[span.start..span.end];
    there == field.as_bytes()
}

/// The place of a field in the text of a manifest, whose licence field is at a place, if there is one.
pub(crate) fn counted_at(text: &str, span: Option<Span>, field: &str) -> Option<Span>
    requires { IsFound text.now span }
    ensures value { result ≡ spec.span_in field.now text.now }
    ensures cuts { IfSome result (λ span. CutsOut text.now span field.now) }
{
    match span {
        Some(span) if cuts_out(text, span, field) => Some(span),
        _ => None,
    }
}

/// The place of a field in the text of a manifest.
pub(crate) fn span_in(text: &str, field: &str) -> Option<Span>
    ensures value { result ≡ spec.span_in field.now text.now }
    ensures cuts { IfSome result (λ span. CutsOut text.now span field.now) }
{
    counted_at(text, license_span(text), field)
}
