//! Texts that a finding points into: where a manifest writes its licence, where a fault is in an
//! expression with slashes, and a text that is written in place of a manifest.

pub mod manifest;
pub mod slashes;
pub mod span_search;
pub mod synthetic;

pub use manifest::FileNote;
pub use slashes::correct_span;
pub use span_search::license_span;
pub use synthetic::{Synthetic, TextPiece};
