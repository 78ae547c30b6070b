//! Where crates come from: registries and git repositories, and the addresses of both.

pub mod git;
pub mod matching;
pub mod order;
mod query;
pub mod reading;
pub mod source;

pub use git::normalize_git_url;
pub use matching::matches_address;
pub use source::{GitSpec, Source, SourceError};
