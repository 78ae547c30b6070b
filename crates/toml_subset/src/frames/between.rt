//! Where an array and an inline table go on.
ghost use Rattle.std.specs.Prelude.{◌≡◌, ◌≤◌, ◌<◌, ◌&&◌, nat_lt, length, IfOk};
ghost use Rattle.toml_subset.specs.Reading.{cut_in_comment, space_fault as fault_of_space};
ghost use Rattle.toml_subset.specs.frames.Between.{next_place, item_place as item_at, behind_item as on_behind_item};
ghost use Rattle.toml_subset.specs.frames.Between.{entry_place as entry_at, behind_entry as on_behind_entry};

use crate::{Space, SyntaxError, after_blanks, control_character, space_from, stands, stuck};

/// Where an array or an inline table goes on.
#[derive(Clone, Copy, Debug, PartialEq, Eq)]
pub enum Next {
    /// It is closed, up to a place.
    Closed(usize),
    /// A further item or entry is at a place.
    Further(usize),
}

/// Whether a space in an array ends in a comment, at a character that may not are there.
fn is_cut(text: &str, space: Space) -> bool
    ensures { result ≡ (space.in_comment && nat_lt space.end (length text.now)) }
{
    space.in_comment && space.end < text.len()
}

/// What is wrong behind a space in an array, where no token is.
fn space_fault(text: &str, place: usize) -> SyntaxError
    requires { place ≤ length text.now }
    ensures { result ≡ fault_of_space text.now place }
{
    let space = space_from(text.as_bytes(), place);
    if is_cut(text, space) {
        control_character(text, space.end)
    } else {
        stuck(text, space.end)
    }
}

/// Where an array goes on, behind its opening or a comma.
#[tactic(auto, using(crate::proofs::Law::Forward::space_goes))]
pub fn item_place(text: &str, place: usize) -> Result<Next, SyntaxError>
    requires { place ≤ length text.now }
    ensures next { result ≡ item_at text.now place }
    ensures goes { IfOk result (λ next. place ≤ next_place next) }
    ensures within { IfOk result (λ next. next_place next ≤ length text.now) }
{
    let bytes = text.as_bytes();
    let space = space_from(bytes, place);
    if is_cut(text, space) {
        Err(space_fault(text, place))
    } else if stands(bytes, space.end, b']') {
        Ok(Next::Closed(space.end + 1))
    } else {
        Ok(Next::Further(space.end))
    }
}

/// Where an array goes on, behind an item.
#[tactic(auto, using(crate::proofs::Law::Forward::space_goes))]
pub fn behind_item(text: &str, place: usize) -> Result<Next, SyntaxError>
    requires { place ≤ length text.now }
    ensures next { result ≡ on_behind_item text.now place }
    ensures goes { IfOk result (λ next. place < next_place next) }
    ensures within { IfOk result (λ next. next_place next ≤ length text.now) }
{
    let bytes = text.as_bytes();
    let end = space_from(bytes, place).end;
    if stands(bytes, end, b']') {
        Ok(Next::Closed(end + 1))
    } else if stands(bytes, end, b',') {
        item_place(text, end + 1)
    } else {
        Err(space_fault(text, place))
    }
}

/// Where an inline table goes on, behind its opening.
pub fn entry_place(text: &str, place: usize) -> Next
    requires { place ≤ length text.now }
    ensures next { result ≡ entry_at text.now place }
    ensures goes { place ≤ next_place result }
    ensures within { next_place result ≤ length text.now }
{
    let bytes = text.as_bytes();
    let end = after_blanks(bytes, place);
    if stands(bytes, end, b'}') {
        Next::Closed(end + 1)
    } else {
        Next::Further(end)
    }
}

/// Where an inline table goes on, behind an entry.
pub fn behind_entry(text: &str, place: usize) -> Result<Next, SyntaxError>
    requires { place ≤ length text.now }
    ensures next { result ≡ on_behind_entry text.now place }
    ensures goes { IfOk result (λ next. place < next_place next) }
    ensures within { IfOk result (λ next. next_place next ≤ length text.now) }
{
    let bytes = text.as_bytes();
    let end = after_blanks(bytes, place);
    if stands(bytes, end, b'}') {
        Ok(Next::Closed(end + 1))
    } else if stands(bytes, end, b',') {
        Ok(Next::Further(after_blanks(bytes, end + 1)))
    } else {
        Err(stuck(text, end))
    }
}
