//! The crates that the metadata's file tells of.
#![tactic(auto)]

pub mod error;
pub mod krates;

pub use error::{KratesError, UnsupportedPart};
pub use graph_core::selection::{ExcludeSpec, ExcludeSpecs, Include, KrateRefs, Krates, Selection};
pub use graph_core::{Krate, Metadata};
pub use graph_metadata::{MetaFault, MetaReason};
pub use krates::{krates_at, metadata_at};
pub use tree_core::texts::ReadFault;
