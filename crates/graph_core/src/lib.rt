//! The crates that metadata tells of.
#![tactic(auto)]

pub mod edge;
pub mod krate;
pub mod metadata;
pub mod selection;
pub mod source;

pub use crate::source::{GitSpec, Source, SourceError, matches_address, normalize_git_url};
pub use edge::{DepKind, Edge, Edges, Kinds};
pub use krate::{FeatureMap, Krate};
pub use metadata::{Metadata, MetadataParts};
