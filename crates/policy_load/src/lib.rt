//! The load of a policy: its file and its exceptions file are read, and what is wrong with them is printed.
#![tactic(auto)]

pub mod error;
pub mod loading;

pub use error::LoadError;
pub use loading::{PolicyPaths, load};
pub use policy_core::text::{
    ErrorKind, ReadFault, ShapeError, ShapeErrors, SyntaxError, SyntaxReason,
};
pub use policy_core::{Diagnostics, GraphConfig, LoadedPolicy, OutputConfig, ValidConfig};
