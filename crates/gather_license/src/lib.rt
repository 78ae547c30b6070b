//! What settles the licence that a crate is under: the clarifications of the policy and of its exceptions
//! file, its own field and its licence files. And the licence texts that it comes with.
#![tactic(auto)]

pub mod clarification;
pub mod expression;
pub mod files;
pub mod location;
mod notes;
pub mod scan;
pub mod settle;
pub mod settling;
pub mod texts;

pub use clarification::{ClarificationRef, FileRef, HeldClarification};
pub use expression::{KeptFile, KeptFiles, KeptText, TextKept, kept_files};
pub use scan::Scan;
pub use settle::{Coords, SettledLicense, folder, settle_license};
pub use settling::{FilesSeen, JoinedNames, LicenseBasis};
pub use texts::{OwnText, OwnTextItems, OwnTexts, own_texts};
