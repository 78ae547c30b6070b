//! Files that are read as texts, and where a policy and an exceptions file are looked for.

pub mod fault;
pub mod read;
pub mod search;

pub use fault::ReadFault;
pub use read::{TextHeard, read_file_text};
pub use search::{SearchError, SoughtFile, find_upwards};
