//! The crates of a workspace that are checked: those that walks from its roots reach.

pub mod exclude;
pub mod krates;
mod marks;
pub mod selection;
mod standing;

pub use crate::{DepKind, Edge, Edges, Kinds, Krate, Metadata};
pub use exclude::{ExcludeSpec, ExcludeSpecs, has_unsupported, read_specs};
pub use krates::{KrateRefs, Krates};
pub use marks::{counting_at, other_kinds, passes, standing_at};
pub use selection::{BuildError, Include, Selection};
pub use standing::{Standing, standings_of};
