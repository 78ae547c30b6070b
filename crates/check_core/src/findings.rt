//! The verdict on a crate as a finding: what it says, and the terms of the crate's expression at their places.
//! Used by crate_check and unused; the split into files may change, each clause is on its function.

pub mod label;
pub mod laws;
pub mod pack;
pub mod place;
pub mod source;
pub mod told;

pub use pack::pack_of;
pub use place::fits;
pub use source::{push_with_commas, source_text};
pub use told::{finding, judged, skipped, unlicensed};
