//! A process that is made up: its words as bytes, and its folder, or why that is not reported.
use std::env::{Env, FillError};
use std::io;
use std::io::ErrorKind;
use tests_files::{Case, CaseEntry};
use tests_text::system::{fill, kind_named};

/// The process of a case: its words are by the key `word`, those of the base where it has none of its own, and its folder is
/// behind the key `folder`, or the name of the error that it is reported with.
#[derive(Clone, Copy)]
pub struct Process<'c>(pub Case<'c>);

/// The bytes of a word: the text below it, or else what is behind its key.
fn bytes_of(entry: &CaseEntry) -> &[u8] {
    if entry.text.is_empty() {
        entry.word().as_bytes()
    } else {
        &entry.text
    }
}

/// The word at a place, counted from 0.
fn word_at<'c>(case: &Case<'c>, place: usize) -> Option<&'c [u8]> {
    let is_own = case.has_own("word");
    let entries = if is_own { case.own } else { case.base };
    let mut words = entries.iter().filter(|entry| entry.key() == "word");
    words.nth(place).map(|entry| bytes_of(entry))
}

impl Env for Process<'_> {
    fn arg(&self, i: usize, buf: &mut [u8]) -> Result<usize, FillError> {
        match word_at(&self.0, i) {
            Some(word) => match fill(word, buf) {
                Some(count) => Ok(count),
                None => Err(FillError::TooLong),
            },
            None => Err(FillError::NotPresent),
        }
    }

    fn var(&self, _name: &str, _buf: &mut [u8]) -> Result<usize, FillError> {
        Err(FillError::NotPresent)
    }

    fn var_at(&self, _i: usize, _buf: &mut [u8]) -> Result<usize, FillError> {
        Err(FillError::NotPresent)
    }

    fn current_dir(&self, buf: &mut [u8]) -> io::Result<usize> {
        let folder = self.0.word("folder");
        if !folder.starts_with('/') {
            return Err(io::Error::from(kind_named(folder)));
        }
        match fill(folder.as_bytes(), buf) {
            Some(count) => Ok(count),
            None => Err(io::Error::from(ErrorKind::NotFound)),
        }
    }
}
