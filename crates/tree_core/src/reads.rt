//! What was read for a crate, and what came of it.
use deny_text::{ListOf, PathBuf};

/// What was to be read.
#[derive(Clone, Copy, Debug, PartialEq, Eq)]
pub enum ReadKind {
    Manifest,
    Listing,
    LicenseFile,
}

/// What came of a read.
#[derive(Clone, Copy, Debug, PartialEq, Eq)]
pub enum ReadAnswer {
    Got,
    Absent,
    WrongKind,
    /// The bytes are no UTF-8.
    NotUtf8,
    /// The read failed, and the tree's count of faults stood so before and after it.
    Failed { before: u64, after: u64 },
}

/// One read.
#[derive(Drop, PartialEq, Eq)]
pub struct ReadRecord {
    pub path: PathBuf,
    pub kind: ReadKind,
    pub answer: ReadAnswer,
}

/// Reads in the order of the calls.
pub type Reads = ListOf<ReadRecord>;
