//! Why a file was not read.

/// Why a file that is needed was not read.
#[derive(Clone, Copy, Debug, PartialEq, Eq)]
pub enum ReadFault {
    /// The tree failed. The numbers are its counts of faults, at the start of the run and after it had
    /// failed.
    Failed { before: u64, after: u64 },
    Absent,
    Folder,
    /// The place of the first byte that is not UTF-8.
    NotUtf8 { at: usize },
}
