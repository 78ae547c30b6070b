//! Reads of a crate's files: what is read, and what their records say.

pub mod bad_read;
pub mod laws;
pub mod reading;

pub use bad_read::BadRead;
pub use reading::{FileHeard, FolderHeard, file_record, list_folder, listing_record, read_file};
