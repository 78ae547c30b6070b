//! The policy as it is written: the whole file, and the table `licenses` in it.

pub mod config;
mod open_table;
mod placed;
pub mod root;

pub use config::Config;
pub use root::RootConfig;
