//! Validation: what of a policy that has its shape is valid, and what is found wrong with the rest.

mod addresses;
pub mod clarifications;
pub mod entries;
pub mod findings;
pub mod laws;
mod order;
pub mod validate;

pub use clarifications::judge_clarifications;
pub use entries::add_exceptions;
pub use findings::{ItemOrFinding, error_at};
pub use validate::UnvalidatedConfig;
