//! Files that findings point into: places in them, and the files that are at paths.
use deny_text::{PathBuf, Text};
use diag_core::{AddError, FileId, Files};
use std::alloc::{AllocError, Global};
use tests_files::tree::{number_in, pair_of};
use tests_files::{AnswerText, Asked, Told};
use tests_text::paths::put_option;

/// Adds a file with the first text, and gives it the second one later, where that has letters.
fn put_file(alloc: Global, files: &mut Files, text: &str) -> Result<(), AllocError> {
    let (first, second) = text.split_once(", then ").unwrap_or((text, ""));
    files.add_unnamed(Text::copy(alloc, "named")?, Text::copy(alloc, first)?)?;
    if !second.is_empty() {
        files.update(0, Text::copy(alloc, second)?)?;
    }
    Ok(())
}

/// Puts what a file says of the byte or the line of that number, or else its name and its text.
fn put_place(out: &mut AnswerText, group: &str, files: &Files, number: usize) {
    match group {
        "line and column" => match files.location(0, number) {
            Ok(place) => write!(out, "{}:{}", place.line, place.column),
            Err(error) => write!(out, "{error:?}"),
        },
        "file that was updated" => {
            let source = files.source(0).unwrap_or("no source");
            write!(out, "{}: {source}", files.name(0).unwrap_or("no name"));
        }
        _ => match files.line_range(0, number) {
            Ok(span) => out.put_span("", span),
            Err(error) => write!(out, "{error:?}"),
        },
    }
}

/// Puts what a file says that is as `NUMBER in TEXT`, or as its text alone. Its text is that behind `, then `, which it is given
/// later; there is no file of the text `no file`.
fn put_in_file(out: &mut AnswerText, asked: &Asked<'_>) {
    let (number, text) = asked.text.split_once(" in").unwrap_or(("1", asked.text));
    let mut files = Files::new(asked.alloc);
    let text = text.trim_start();
    if text != "no file" {
        out.needs(put_file(asked.alloc, &mut files, text));
    }
    put_place(out, asked.group, &files, number_in(number));
}

/// Adds the file of a word `PATH=SOURCE`, or of a path that is its own source; one of `name:NAME=SOURCE` no path finds.
fn add(alloc: Global, files: &mut Files, word: &str) -> Result<FileId, AddError> {
    let (path, source) = word.split_once('=').unwrap_or((word, word));
    let source = Text::copy(alloc, source)?;
    match path.strip_prefix("name:") {
        Some(name) => Ok(files.add_unnamed(Text::copy(alloc, name)?, source)?),
        None => files.add(PathBuf::copy(alloc, path)?, source),
    }
}

/// Adds the files of some words, puts what was not added, and then the text of that with the path behind a bar, where one is
/// looked for.
fn put_added(out: &mut AnswerText, alloc: Global, text: &str, is_sought: bool) {
    let (words, path) = pair_of(text);
    let mut files = Files::new(alloc);
    for word in words.split(' ') {
        match &add(alloc, &mut files, word) {
            Ok(_) => {}
            Err(AddError::PathTaken(path, source)) => write!(out, "taken: {path} {source}"),
            Err(AddError::Memory) => out.want_memory(),
        }
    }
    if is_sought {
        put_option(out, files.source_by_path(path));
    }
}

/// Puts what a text comes to in a group of files.
pub fn put(asked: &Asked<'_>, out: &mut AnswerText) -> Told {
    match asked.group {
        "last of some files" => put_added(out, asked.alloc, asked.text, false),
        "file by its path" => put_added(out, asked.alloc, asked.text, true),
        "line and column" | "bytes of a line" | "second line of it" | "file that was updated" => {
            put_in_file(out, asked)
        }
        _ => return Told::NoSuchGroup,
    }
    Told::Answer
}
