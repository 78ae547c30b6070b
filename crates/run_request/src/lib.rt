//! What the words of a command line ask for.
//! Used by deny_run, the commands' crates and run_completions; no clause is here, names may be added.
#![tactic(auto)]

pub mod bill;
pub mod check;
pub mod command;
pub mod context;
pub mod error;
pub mod from_word;
pub mod laws;
pub mod level;
pub mod list;
mod message;
mod names;
pub mod number;
pub mod options;
pub mod output;
pub mod read;
pub mod request;
mod rows;
mod words;

pub use context::KrateContext;
pub use error::ArgsError;
pub use from_word::FromWord;
pub use level::{CodeOrLevel, CodeOrLevels, Level, LintLevels, WhichCheck, WhichChecks};
pub use number::{SampleSize, Threshold};
pub use output::{Layout, OutputFormat};
pub use read::CliAnswer;
pub use request::{Request, Subcommand};
