//! The licence expression of a crate's field, and what its licence files are identified as.

pub mod files;
pub mod kept;
pub mod taken;

pub use files::{FileResult, IdentifiedName, ScannedFile, scan_pack};
pub use kept::{KeptFile, KeptFiles, KeptText, TextKept, kept_files};
pub use taken::{field, joined};
