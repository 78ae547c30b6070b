//! The evaluator: an expression of a crate and a valid policy in, a verdict with its certificate out.
//! Used by crate_check, and by check_verify for hits and the index; what is passed on may change.

mod answers;
mod entry_index;
pub mod evaluator;
mod hits;
pub mod laws;
pub mod private_index;
mod room;

pub use entry_index::EntryIndex;
pub use evaluator::Evaluator;
pub use hits::hit_by;
pub use private_index::PrivateIndex;
pub use spdx_core::certificates::{Hit, Hits, TermPlaces, Verdict};
