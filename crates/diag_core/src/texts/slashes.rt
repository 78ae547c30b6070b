//! Places in an expression whose slashes were read as ` OR `.
ghost use Rattle.std.specs.Prelude.{◌≡◌, ◌-◌, ◌*◌, ◌^◌, ◌≤◌, ◌<◌, nat_eq, if◌then◌else◌};
ghost use Rattle.diag_core.specs.texts.Slashes.{span_in_manifest, corrected_by};

use deny_text::Span;

/// Leads a place of the text in which each slash was replaced by ` OR ` back to the text with the slashes. A
/// start inside a replacement leads to the slash. The end loses only what the slashes up to the start gave,
/// so a place over later slashes may end past the text.
pub fn correct_span(original: &str, error_span: &mut Span)
    ensures { error_span.new ≡ span_in_manifest original.now error_span.old }
{
    let start = error_span.start;
    let mut place = 0;
    let mut number = 0;
    let mut count = 0;
    let mut last = 0;
    'bytes: for byte in original.as_bytes() {
        if *byte == b'/' {
            if place <= start && number <= (start - place) / 3 {
                count += 1;
                last = place;
            }
            number += 1;
        }
        place += 1;
    }
    *error_span = corrected_span(*error_span, count, last);
}

/// The place by the number of the slashes up to its start and the last of them.
fn corrected_span(span: Span, count: usize, last: usize) -> Span
    requires up_to_start { last ≤ span.start }
    requires fits { last < 2 ^ 63 }
    ensures { result ≡ (if nat_eq count 0 then span else corrected_by count last span) }
{
    if count == 0 {
        return span;
    }
    if less_thrice(span.start - last, count) == 0 {
        let end = less_thrice(span.end, count);
        return Span {
            start: last,
            end: end.max(last + 1),
        };
    }
    Span {
        start: less_thrice(span.start, count),
        end: less_thrice(span.end, count),
    }
}

/// Less three times the count, and not below 0.
fn less_thrice(number: usize, count: usize) -> usize
    ensures { result ≡ number - 3 * count }
{
    number
        .saturating_sub(count)
        .saturating_sub(count)
        .saturating_sub(count)
}
