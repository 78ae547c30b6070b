//! The place of a fault in the text of a policy.
//! Called by `push_syntax` of `help`; the place may be found by any walk, no clause has the table of files.
ghost use Rattle.std.specs.Prelude.{◌≡◌, ◌+◌, ◌<◌, ◌^◌, IfOk, option_map};
ghost use Rattle.std.specs.Option.{ForSome};
ghost use Rattle.refusal_help.specs.Help.{found_at, place_in};
ghost use Rattle.diag_core.specs.Position.{location_of};

use deny_text::Text;
use diag_core::{Files, Location};
use std::alloc::{AllocError, Global};

/// The line and the column of a place of a text, both from 0, where the text has the place.
fn location(alloc: Global, text: &str, place: usize) -> Result<Option<Location>, AllocError>
    ensures at { IfOk result (λ at. at ≡ found_at (location_of place text.now)) }
    ensures room { IfOk result (λ at. ForSome at (λ is. (is.line + 1 < 2 ^ 64) × (is.column + 1 < 2 ^ 64))) }
{
    let mut files = Files::new(alloc);
    let name = Text::copy(alloc, "")?;
    let source = Text::copy(alloc, text)?;
    let id = files.add_unnamed(name, source)?;
    match files.location(id, place) {
        Ok(at) => Ok(Some(at)),
        Err(_) => Ok(None),
    }
}

/// The same where the text was read.
pub(crate) fn place_in(
    alloc: Global,
    text: &Option<Text>,
    place: usize,
) -> Result<Option<Location>, AllocError>
    ensures at { IfOk result (λ at. at ≡ place_in text.now place) }
    ensures room { IfOk result (λ at. ForSome at (λ is. (is.line + 1 < 2 ^ 64) × (is.column + 1 < 2 ^ 64))) }
{
    match text {
        Some(text) => location(alloc, text.as_str(), place),
        None => Ok(None),
    }
}
