//! The licence files of a crate, each read once, and the clarifications that hold by their hashes.

mod file_key;
mod found;
pub mod laws;
pub mod license_text;
pub mod named_file;
pub mod pack;
mod told;

pub use license_text::LicenseText;
pub use named_file::NamedFile;
pub use pack::{LicensePack, LicensePackIter, PackFileData, TriedClarification};
