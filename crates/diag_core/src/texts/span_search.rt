//! The search for a licence field in the text of a manifest.
ghost use Rattle.std.specs.Prelude.{◌≡◌, ◌≤◌, ◌<◌, IfSome, codes, length, option_copied};
ghost use Rattle.diag_core.specs.texts.SpanSearch.{rest_behind, behind_quote, license_span_of};
ghost use Rattle.diag_core.specs.texts.SpanSearch.{quote_place, value_behind};

use deny_text::Span;

const KEY: &str = "license";

/// The place of the value at the first place of the text where these follow one another: `license`, any white
/// space, `=`, any white space, a quote (`"` or `'`), a value without quotes, which may be empty, and a
/// quote, which may be the other one. It is searched as text: nothing has to be before the key, and a
/// comment or a key of another name that ends so is found too.
pub fn license_span(text: &str) -> Option<Span>
    ensures value { result ≡ license_span_of text.now }
    ensures inside { IfSome result (λ span. (span.start ≤ span.end) × (span.end ≤ length text.now)) }
{
    let mut rest = text;
    'keys: while let Some((_, behind)) = rest.split_once(KEY) {
        if let Some(span) = value_span(behind) {
            let before = text.len() - behind.len();
            return Some(Span {
                start: before + span.start,
                end: before + span.end,
            });
        }
        rest = behind;
    }
    None
}

/// The place of the value in the text behind a key.
fn value_span(text: &str) -> Option<Span>
    ensures value { result ≡ value_behind text.now }
    ensures inside { IfSome result (λ span. (span.start ≤ span.end) × (span.end ≤ length text.now)) }
{
    let Some(after) = after_sign(text.trim_start()) else {
        return None;
    };
    let Some(value) = after_quote(after.trim_start()) else {
        return None;
    };
    let Some(len) = first_quote(value.as_bytes()) else {
        return None;
    };
    let start = text.len() - value.len();
    Some(Span {
        start,
        end: start + len,
    })
}

/// What follows the sign `=` that the text begins with.
fn after_sign(text: &str) -> Option<&str>
    ensures value { option_copied result ≡ rest_behind (codes "=") text.now }
    ensures shorter { IfSome result (λ rest. length rest.now < length text.now) }
{
    text.strip_prefix('=')
}

/// What follows the quote that the text begins with.
fn after_quote(text: &str) -> Option<&str>
    ensures value { option_copied result ≡ behind_quote text.now }
    ensures shorter { IfSome result (λ rest. length rest.now < length text.now) }
{
    match text.strip_prefix('"') {
        Some(rest) => Some(rest),
        None => text.strip_prefix('\''),
    }
}

fn first_quote(bytes: &[u8]) -> Option<usize>
    ensures value { result ≡ quote_place bytes.now }
    ensures inside { IfSome result (λ place. place < length bytes.now) }
{
    bytes
        .iter()
        .position(|byte| *byte == b'"' || *byte == b'\'')
}
