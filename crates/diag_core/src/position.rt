//! Places in a file, and why one is refused.

/// The number of a file.
pub type FileId = usize;

/// A place as a line and a column, both from 0. The column counts characters.
#[derive(Clone, Copy, Debug, PartialEq, Eq)]
pub struct Location {
    pub line: usize,
    pub column: usize,
}

/// Why a question about a file has no answer.
#[derive(Clone, Copy, Debug, PartialEq, Eq)]
pub enum FilesErr {
    /// No file has the number.
    FileMissing,
    /// The place is past the end; `max` is the length less one, or 0 for an empty text.
    IndexTooLarge { given: usize, max: usize },
    /// The place is inside a character.
    InvalidCharBoundary { given: usize },
    /// No line has the number; `max` is the number of lines.
    LineTooLarge { given: usize, max: usize },
}
