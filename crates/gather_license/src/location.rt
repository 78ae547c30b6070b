//! Where the licence field of a crate is in its manifest.

pub mod location;
mod search;

pub use location::{LocatedField, locate};
