//! The file of a policy: its text, and the policy as it is written.

pub mod config;
pub mod error;
pub mod text;

pub use crate::config::{Config, RootConfig};
pub use config::read_config;
pub use error::ConfigError;
pub use policy_toml::{ErrorKind, ShapeError, ShapeErrors, SyntaxError, SyntaxReason};
pub use text::ConfigText;
pub use tree_core::texts::{ReadFault, TextHeard};
