//! Licences found by their families.

pub mod index;
pub mod laws;
mod map;

pub use index::{FamilyIndex, FamilyIndexes};
