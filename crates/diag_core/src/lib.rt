//! Files, findings, their codes and their overrides.
#![tactic(auto)]

mod characters;
pub mod code;
mod code_table;
pub mod deprecated;
pub mod diagnostic;
pub mod files;
pub mod general;
pub mod label;
pub mod licenses;
mod line_index;
mod line_scan;
pub mod lists;
pub mod overrides;
pub mod pack;
pub mod position;
pub mod severity;
mod source_file;
pub mod texts;

pub use code::{DiagnosticCode, DiagnosticCodeIter};
pub use code_table::Unknown;
pub use deprecated::{Deprecated, DeprecationReason};
pub use diagnostic::{Diagnostic, Notes};
pub use files::{AddError, Files};
pub use label::{CfgCoord, Coord, KrateCoord, Label, LabelStyle, Labels};
pub use overrides::{CodeMap, DiagnosticOverrides, ErrorSink, LevelPair, LevelPairs, Packs};
pub use pack::{Check, Diag, GraphNode, GraphNodes, Pack, PackIntoIter, PackIter};
pub use position::{FileId, FilesErr, Location};
pub use severity::{LevelFilter, Severity, log_level_to_severity};
