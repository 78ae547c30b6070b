//! The entries of a policy that know licences: licensees, exceptions and clarifications.

pub mod clarification;
pub mod exception;
pub mod laws;
pub mod licensee;
mod with_spec;

pub use clarification::{Clarification, Clarifications};
pub use exception::{Exception, Exceptions, ExceptionsFile};
pub use licensee::{Licensee, Licensees};
