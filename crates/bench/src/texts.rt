//! Texts that are made in memory, of any size, and what each has again and again.
use std::alloc::{AllocError, Global};

/// A line of 64 bytes.
pub(crate) const LICENCE: &str =
    "Permission is hereby granted, free of charge, to any person who\n";

/// A line with a CR before the LF.
pub(crate) const RETURNS: &str = "Permission is hereby granted, free of charge, to any person\r\n";

/// A path in a line.
pub(crate) const PATHS: &str =
    "/home/user/.cargo/registry/src/index.crates.io-1949cf8c6b5b557f/crate-#/Cargo.toml\n";

/// An entry of 14 bytes, on a line and without a line end.
pub(crate) const ENTRY_LINES: &str = "\"licence-é\",\n";

pub(crate) const ENTRY_LINE: &str = "\"licence-é\", ";

/// The text that has a piece so many times, with the number of the time in place of a `#`.
pub(crate) fn repeated(alloc: Global, piece: &str, count: usize) -> Result<String, AllocError> {
    let mut out = String::new(alloc);
    for number in 0..count {
        match piece.split_once('#') {
            Some((front, back)) => write!(out, "{front}{number}{back}")?,
            None => out.push_str(piece)?,
        }
    }
    Ok(out)
}
