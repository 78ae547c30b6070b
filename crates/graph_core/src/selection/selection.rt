//! What crates are selected by, and why none are.
ghost use Rattle.std.specs.Prelude.{◌≡◌};
ghost use Rattle.graph_core.specs.declared.selection.selection.BuildError.TheVariants.{Memory};

use crate::selection::exclude::ExcludeSpecs;
use std::alloc::AllocError;

/// What crates are selected by.
#[derive(Drop)]
pub struct Selection {
    /// All members of the workspace are roots, also where the metadata has a root crate.
    pub workspace: bool,
    /// What these specs leave out is no root, and no walk visits it.
    pub exclude: ExcludeSpecs,
    /// Dev dependencies don't count, not even those of members.
    pub exclude_dev: bool,
    /// Members whose publish list is there and empty are no roots. Walks may still visit them.
    pub exclude_unpublished: bool,
}

/// Which crates are checked that only dependencies of these kinds lead to.
#[derive(Clone, Copy)]
pub struct Include {
    pub dev: bool,
    pub build: bool,
}

/// Why nothing is selected.
#[derive(Clone, Copy, Debug, Drop, PartialEq, Eq)]
pub enum BuildError {
    /// No root is left.
    NoRoots {
        /// The crates that would be roots: the root crate, or all members.
        base: usize,
        /// Those of them that a spec leaves out.
        excluded: usize,
        /// Those of the others that are published nowhere, where these are left out.
        unpublished: usize,
    },
    /// Memory was refused.
    Memory,
}

impl From<AllocError> for BuildError {
    ghost from_gives = { λ _ error. error ≡ Memory };

    fn from(_refused: AllocError) -> BuildError {
        BuildError::Memory
    }
}
