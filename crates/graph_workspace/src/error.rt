//! Why there are no crates.
ghost use Rattle.std.specs.Prelude.{◌≡◌};
ghost use Rattle.graph_workspace.specs.Krates.{error_of_records, error_of_build};
ghost use Rattle.graph_workspace.specs.declared.error.KratesError.TheVariants.{Memory};

use graph_core::selection::BuildError;
use graph_metadata::{MetaError, MetaFault};
use std::alloc::AllocError;
use tree_core::texts::ReadFault;

/// What a request asks for that is not carried.
#[derive(Clone, Copy, Debug, PartialEq, Eq)]
pub enum UnsupportedPart {
    /// Metadata from no file: it has no path.
    MetadataPath,
    /// A check that is not the one of licences, or all checks.
    Which,
    /// A form of findings that is neither for people nor JSON.
    Format,
    /// The crates of some platforms alone.
    Target,
    /// A file with a picture of the graph.
    Graph,
    /// Advisories in the form of another tool.
    Audit,
    /// A spec of crates to be left out that holds a `/` or a `#`.
    ExcludeSpec,
}

/// Why there are no crates.
#[derive(Debug, Drop)]
pub enum KratesError {
    Memory,
    NotCarried(UnsupportedPart),
    /// The metadata was not read.
    MetadataRead(ReadFault),
    /// The metadata is no JSON.
    MetadataSyntax,
    /// The metadata has not the stated shape.
    MetadataShape(MetaFault),
    /// No root crate is left.
    NoRoots {
        /// The crates that would be roots.
        base: usize,
        /// Those of them that a spec leaves out.
        excluded: usize,
        /// Those of the others that are published nowhere, where these are left out.
        unpublished: usize,
    },
}

impl From<AllocError> for KratesError {
    ghost from_gives = { λ _ error. error ≡ Memory };

    fn from(_: AllocError) -> KratesError {
        KratesError::Memory
    }
}

impl From<MetaError> for KratesError {
    ghost from_gives = { λ refused error. error ≡ error_of_records refused };

    fn from(refused: MetaError) -> KratesError {
        match refused {
            MetaError::Memory => KratesError::Memory,
            MetaError::Syntax => KratesError::MetadataSyntax,
            MetaError::Shape(fault) => KratesError::MetadataShape(fault),
        }
    }
}

impl From<BuildError> for KratesError {
    ghost from_gives = { λ refused error. error ≡ error_of_build refused };

    fn from(refused: BuildError) -> KratesError {
        match refused {
            BuildError::Memory => KratesError::Memory,
            BuildError::NoRoots {
                base,
                excluded,
                unpublished,
            } => KratesError::NoRoots {
                base,
                excluded,
                unpublished,
            },
        }
    }
}
