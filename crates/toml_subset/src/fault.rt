//! Faults at a place, as all readers answer them.
ghost use Rattle.std.specs.Prelude.{◌≡◌, ◌+◌, ◌<◌, length};
ghost use Rattle.toml_subset.specs.Answer.{fault_at as fault_from, stop_error as stuck_at};

use crate::error::{SyntaxError, SyntaxReason};
use crate::scan::char_end;
use deny_text::Span;

/// A fault from a place up to another.
pub fn fault_at(reason: SyntaxReason, start: usize, end: usize) -> SyntaxError
    ensures { result ≡ fault_from reason start end }
{
    SyntaxError {
        reason,
        span: Span { start, end },
    }
}

/// Nothing can go on at a place: another character is there, or the text ends.
pub fn stuck(text: &str, place: usize) -> SyntaxError
    ensures { result ≡ stuck_at text.now place }
{
    if place < text.len() {
        fault_at(SyntaxReason::Unexpected, place, char_end(text, place))
    } else {
        fault_at(SyntaxReason::UnexpectedEnd, text.len(), text.len())
    }
}

/// A control character is at a place where none may.
pub fn control_character(text: &str, place: usize) -> SyntaxError
    requires { place < length text.now }
    ensures { result ≡ fault_from SyntaxReason.ControlCharacter place (place + 1) }
{
    let end = place + 1;
    fault_at(SyntaxReason::ControlCharacter, place, end)
}
