//! The parts of a policy that know no licence.
#![tactic(auto)]

pub mod entries;
pub mod file_source;
pub mod graph;
pub mod names;
pub mod output;
pub mod private;
pub mod reason;
pub mod spec;
pub mod target;

pub use file_source::{FileSource, FileSources};
pub use graph::GraphConfig;
pub use names::{BlanketAgreement, LintLevel, Scope};
pub use output::OutputConfig;
pub use private::{Private, SpannedTexts};
pub use reason::Reason;
pub use target::{Target, Targets};
