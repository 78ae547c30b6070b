//! Laws of places.
ghost use Rattle.tree_core.specs.Content.{JoinGoesOn};

use deny_text::path::joins_by_parts;

/// A joined path leads on from where the folder leads: its place is the folder's, followed by the parts of
/// the second path. A part that is the root begins anew.
pub fn join_goes_on()
    ensures { JoinGoesOn }
{
    joins_by_parts();
}
