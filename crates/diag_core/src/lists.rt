//! What validating a policy tells.

pub mod context;

pub use context::{Diagnostics, SpannedList, ValidationContext};
