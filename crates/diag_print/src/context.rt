//! How findings are written.

use diag_core::LevelFilter;

/// The form in which findings are written.
#[derive(Clone, Copy, Debug, PartialEq, Eq)]
pub enum Format {
    /// Lines for a person.
    Human,
    /// One JSON object a line (RFC 8259).
    Json,
    /// Nothing is written.
    Sarif,
}

/// Whether text is coloured. It is read, and changes nothing.
#[derive(Clone, Copy, Debug, PartialEq, Eq)]
pub enum Color {
    Auto,
    Always,
    Never,
}

/// How findings are written, and which.
#[derive(Clone, Copy, Debug, PartialEq, Eq)]
pub struct LogContext {
    pub format: Format,
    pub color: Color,
    /// The least level that is written.
    pub log_level: LevelFilter,
}
