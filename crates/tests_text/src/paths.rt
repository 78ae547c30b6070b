//! Paths, the folders above them, home folders, texts in normal form, and hashes.
use deny_text::ancestors::ancestors;
use deny_text::hash::hash;
use deny_text::home::{cargo_home, home};
use deny_text::normal::normalize;
use deny_text::path::{components, ends_with, file_name, is_absolute, join, parent};
use deny_text::{HomeEnv, HomeError, PathBuf, Text};
use std::alloc::{AllocError, Global};
use tests_files::tree::{number_in, pair_of};
use tests_files::{AnswerText, Asked, Room, Told};

/// Puts a text in quotes, or `none`.
pub fn put_option(out: &mut AnswerText, text: Option<&str>) {
    match text {
        Some(text) => write!(out, "{text:?}"),
        None => out.put("none"),
    }
}

fn put_parts(out: &mut AnswerText, path: &str) {
    for part in components(path) {
        write!(out, "{part:?}; ");
    }
    out.put("end");
}

fn put_ancestors(out: &mut AnswerText, path: &str) {
    for path in ancestors(path) {
        write!(out, "{path:?}; ");
    }
    out.put("end");
}

/// The bytes `(131 i + 7) mod 256` for the places i from 0.
fn sample(alloc: Global, length: usize) -> Result<Vec<u8>, AllocError> {
    let mut bytes = Vec::new(alloc);
    let mut byte: u8 = 7;
    for _ in 0..length {
        bytes.push(byte)?;
        byte = byte.wrapping_add(131);
    }
    Ok(bytes)
}

/// What is behind a name in words `NAME=VALUE`.
fn value_of(alloc: Global, words: &str, name: &str) -> Result<Option<Text>, AllocError> {
    let mut words = words.split(' ').filter_map(|word| word.split_once('='));
    match words.find(|word| word.0 == name) {
        Some((_, value)) => Ok(Some(Text::copy(alloc, value)?)),
        None => Ok(None),
    }
}

/// The variables of words.
fn environment(alloc: Global, words: &str) -> Result<HomeEnv, AllocError> {
    let home = value_of(alloc, words, "HOME")?;
    let cargo_home = value_of(alloc, words, "CARGO_HOME")?;
    Ok(HomeEnv { home, cargo_home })
}

fn put_home(out: &mut AnswerText, alloc: Global, group: &str, words: &str) {
    match folder(alloc, group, words) {
        Ok(path) => write!(out, "{path}"),
        Err(error) => write!(out, "{error}"),
    }
}

/// The home folder that words give, or cargo's.
fn folder(alloc: Global, group: &str, words: &str) -> Result<PathBuf, HomeError> {
    let environment = environment(alloc, words)?;
    match group {
        "home" => home(alloc, &environment),
        _ => cargo_home(alloc, &environment, "/w"),
    }
}

fn put_sample(out: &mut AnswerText, alloc: Global, length: usize) {
    match &sample(alloc, length) {
        Ok(bytes) => write!(out, "{:08x}", hash(bytes)),
        Err(_) => out.want_memory(),
    }
}

/// Rows of paths and texts.
pub struct Paths;

impl Room for Paths {
    fn answer(&self, asked: &Asked<'_>, out: &mut AnswerText) -> Told {
        let (alloc, text) = (asked.alloc, asked.text);
        let (one, other) = pair_of(text);
        match asked.group {
            "join" => out.printed(join(alloc, one, other)),
            "parent" => put_option(out, parent(text)),
            "file name" => put_option(out, file_name(text)),
            "parts of a path" => put_parts(out, text),
            "ends with" => write!(out, "{}", ends_with(one, other)),
            "is absolute" => write!(out, "{}", is_absolute(text)),
            "ancestors" => put_ancestors(out, text),
            "normal form" => out.printed(normalize(alloc, text)),
            "hash of a text" => write!(out, "{:08x}", hash(text.as_bytes())),
            "hash of a sample" => put_sample(out, alloc, number_in(text)),
            "home" | "home of cargo" => put_home(out, alloc, asked.group, text),
            "home without memory" => write!(out, "{}", HomeError::Memory),
            _ => return Told::NoSuchGroup,
        }
        Told::Answer
    }
}
