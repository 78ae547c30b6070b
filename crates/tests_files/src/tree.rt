//! The tree of a case, the values of it, and the words and numbers of texts.
use crate::case::{Case, CaseEntry};
use std::alloc::{AllocError, Global};
use std::io;
use tree_core::{MemSink, MemTree};

/// The value of an entry `let NAME = VALUE`, if it is of this name.
fn value_in<'e>(entry: &'e CaseEntry, name: &str) -> Option<&'e str> {
    let (key, value) = entry.word().split_once(" =")?;
    if entry.key() == "let" && key == name {
        Some(value.trim())
    } else {
        None
    }
}

fn value_among<'e>(entries: &'e [CaseEntry], name: &str) -> Option<&'e str> {
    entries.iter().find_map(|entry| value_in(entry, name))
}

/// A value by its name: of the case, or else of its base.
fn value_of<'c>(case: &Case<'c>, name: &str) -> Option<&'c str> {
    value_among(case.own, name).or(value_among(case.base, name))
}

/// Appends a piece behind a dollar sign, and returns whether it was the name of a value.
fn put_named(out: &mut Vec<u8>, case: &Case<'_>, piece: &str) -> Result<bool, AllocError> {
    match value_of(case, piece) {
        Some(value) => {
            out.extend_from_slice(value.as_bytes())?;
            Ok(true)
        }
        None => {
            out.push(b'$')?;
            out.extend_from_slice(piece.as_bytes())?;
            Ok(false)
        }
    }
}

fn put_filled(out: &mut Vec<u8>, case: &Case<'_>, text: &str) -> Result<(), AllocError> {
    let mut is_behind_dollar = false;
    for piece in text.split('$') {
        if is_behind_dollar {
            is_behind_dollar = !put_named(out, case, piece)?;
        } else {
            out.extend_from_slice(piece.as_bytes())?;
            is_behind_dollar = true;
        }
    }
    Ok(())
}

/// The text of an entry, in which each value is whose name is between dollar signs.
pub fn text_of(alloc: Global, case: &Case<'_>, entry: &CaseEntry) -> Result<Vec<u8>, AllocError> {
    let mut out = Vec::new(alloc);
    match str::from_utf8(&entry.text) {
        Ok(text) => put_filled(&mut out, case, text)?,
        Err(_) => out.extend_from_slice(&entry.text)?,
    }
    Ok(out)
}

fn put_file(
    alloc: Global,
    tree: &mut MemTree,
    case: &Case<'_>,
    entry: &CaseEntry,
) -> io::Result<()> {
    let bytes = text_of(alloc, case, entry)?;
    match tree.put(entry.word(), &bytes) {
        Ok(()) => Ok(()),
        Err(_) => Err(io::Error::from(io::ErrorKind::InvalidInput)),
    }
}

/// Puts the files of some entries into a tree.
fn put_files(
    alloc: Global,
    tree: &mut MemTree,
    case: &Case<'_>,
    entries: &[CaseEntry],
) -> io::Result<()> {
    for entry in entries {
        if entry.key() == "file" {
            put_file(alloc, tree, case, entry)?;
        }
    }
    Ok(())
}

/// The tree of a case: the files of its base, and then its own, by the key `file`.
pub fn tree_of(alloc: Global, case: &Case<'_>) -> io::Result<MemTree> {
    let mut tree = MemTree::new(alloc);
    put_files(alloc, &mut tree, case, case.base)?;
    put_files(alloc, &mut tree, case, case.own)?;
    Ok(tree)
}

/// Lets the call of a tree fail whose number is this word, counted from 1; at 0 and without a word none. Returns whether that
/// could be done.
pub fn fail_call(tree: &mut MemTree, word: &str) -> bool {
    match number(word) {
        Some(call) if call > 0 => tree.fail_call(call).is_ok(),
        call => call.is_some() || word.is_empty(),
    }
}

/// What was written.
pub fn written(sink: &MemSink) -> &str {
    str::from_utf8(sink.written()).unwrap_or("no UTF-8")
}

/// What is before a bar and behind it, without blanks at their ends.
pub fn pair_of(text: &str) -> (&str, &str) {
    let (one, other) = text.split_once('|').unwrap_or((text, ""));
    (one.trim(), other.trim())
}

/// The first word of a text, and the others.
pub fn first_word(text: &str) -> (&str, &str) {
    text.split_once(' ').unwrap_or((text, ""))
}

/// A number, if the word is one.
pub fn number(word: &str) -> Option<u64> {
    word.parse::<u64>().ok()
}

/// A number, or else 0.
pub fn number_in(word: &str) -> usize {
    word.parse::<usize>().unwrap_or(0)
}

/// The first and the last of a range of numbers, written as `7` or as `1..7`.
pub fn range_of(word: &str) -> Option<(u64, u64)> {
    let (first, last) = word.split_once("..").unwrap_or((word, word));
    Some((number(first)?, number(last)?))
}
