//! The table of files: paths that are added and looked up, and places in a text.
use crate::meter::Meter;
use deny_text::{PathBuf, Text};
use diag_core::{AddError, Files};
use std::alloc::Global;
use std::test::Fail;

/// A table of empty files whose paths are the lines of a text.
fn filled(alloc: Global, text: &str) -> Result<Files, AddError> {
    let mut files = Files::new(alloc);
    for line in text.lines() {
        let path = PathBuf::copy(alloc, line)?;
        files.add(path, Text::from(String::new(alloc)))?;
    }
    Ok(files)
}

/// Adds the paths of a text, and tells the number of the last one.
pub(crate) fn added(alloc: Global, text: &str) -> Result<usize, Fail> {
    let files = filled(alloc, text)?;
    let last = text.lines().last().unwrap_or("");
    Ok(files.id_for_path(last).unwrap_or(0))
}

/// How many lines, each without an end, are paths in a table.
fn found(files: &Files, text: &str, end: &str) -> usize {
    let paths = text
        .lines()
        .map(|line| line.strip_suffix(end).unwrap_or(line));
    paths
        .filter(|path| files.id_for_path(*path).is_some())
        .count()
}

/// How many paths are found in a table of all of them, each without an end: with one of `/Cargo.toml` none.
pub(crate) fn looked_up(
    meter: &mut Meter<'_>,
    alloc: Global,
    text: &str,
    end: &str,
) -> Result<usize, Fail> {
    let files = filled(alloc, text)?;
    meter.start();
    Ok(found(&files, text, end))
}

/// The bytes of an entry.
const ENTRY: usize = 14;

/// The sum of the columns of all entries of a file.
fn columns(files: &Files, text: &str, file: usize) -> Result<usize, Fail> {
    let mut sum: usize = 0;
    for place in (0..text.len()).step_by(ENTRY) {
        let location = files.location(file, place)?;
        sum = sum.saturating_add(location.column);
    }
    Ok(sum)
}

/// The same of a text that is one of the table before.
pub(crate) fn placed(meter: &mut Meter<'_>, alloc: Global, text: &str) -> Result<usize, Fail> {
    let mut files = Files::new(alloc);
    let name = Text::copy(alloc, "deny.toml")?;
    let source = Text::copy(alloc, text)?;
    let file = files.add_unnamed(name, source)?;
    files.index(file);
    meter.start();
    columns(&files, text, file)
}
