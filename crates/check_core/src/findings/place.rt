//! Places in the text of an expression, as places in its file.
//! Called by `label`, and `fits` by `tests_check`; the sums may be made in any way, `requires` bounds them.
ghost use Rattle.std.specs.Prelude.{◌≡◌, ◌↔◌, IsTrue};
ghost use Rattle.check_core.specs.findings.Places as spec;
ghost use Rattle.check_core.specs.findings.Places.{PlaceFits, SpanFits};

use deny_text::Span;
use gather_core::findings::LicenseExprInfo;

/// Whether the file can hold so many bytes of the text, as the finding requires of the whole text.
pub fn fits(nfo: &LicenseExprInfo, far: usize) -> bool
    ensures { IsTrue result ↔ PlaceFits nfo.now far }
{
    match nfo.whole {
        Some(_) => true,
        None => far <= usize::MAX - nfo.offset,
    }
}

/// A place in the expression's text, as a place in the file. Where the string has escapes it is the whole
/// string.
pub(crate) fn span_at(nfo: &LicenseExprInfo, inner: Span) -> Span
    requires { SpanFits nfo.now inner }
    ensures { result ≡ spec.span_in_file nfo.now inner }
{
    match nfo.whole {
        Some(whole) => whole,
        None => Span {
            start: nfo.offset + inner.start,
            end: nfo.offset + inner.end,
        },
    }
}
