//! Reads the metadata of a workspace: the rows of its table of shapes, and the one fault that is reported.
#![tactic(auto)]

pub mod fault;
mod floats;
mod nodes;
mod order;
mod package;
mod reading;
mod rows;
mod shape;

pub use fault::{MetaError, MetaFault, MetaReason};
pub use floats::floats_are_found;
pub use graph_core::{DepKind, Edge, FeatureMap, Kinds, Krate, Metadata};
pub use reading::records;
