//! Texts of licences, which rows name by their files, and what stores of texts find.
use deny_text::Text;
use spdx_terms::catalog::{Identifier, LicenseStore, Match, StoreText, StoreTexts};
use std::alloc::{AllocError, Global};
use std::rt::Runtime;
use std::{fs, io};
use tests_files::{AnswerText, Asked, Shown};

/// The texts of the files that rows name, and of a store, in the order of their paths.
#[derive(Drop)]
pub struct Spdx {
    texts: Vec<String>,
}

impl Spdx {
    /// The text of a file, or none.
    pub fn text(&self, name: &str) -> &str {
        for (path, text) in PATHS.iter().zip(&self.texts) {
            if path.strip_prefix("spdx/") == Some(name) {
                return text.as_str();
            }
        }
        ""
    }
}

const PATHS: [&str; 7] = [
    "spdx/mit.txt",
    "spdx/mit-capitals.txt",
    "spdx/mit-words.txt",
    "spdx/isc.txt",
    "spdx/stored.txt",
    "spdx/built-in-list.txt",
    "spdx/spdx-list.txt",
];

/// Reads the files that rows name.
pub fn read(rt: &HostRuntime) -> io::Result<Spdx> {
    let texts = PATHS.iter().map(|path| fs::read_to_string(rt, path));
    let texts: io::Result<Vec<String>> = texts.try_collect(rt.alloc());
    texts.map(|texts| Spdx { texts })
}

/// The licence that a text is by a group's texts, and how sure that is. In the text that of a file stands for the file's name,
/// which is in braces.
pub fn put(room: &Spdx, asked: &Asked<'_>, out: &mut AnswerText) {
    let (before, rest) = asked.text.split_once('{').unwrap_or((asked.text, ""));
    let (name, behind) = rest.split_once('}').unwrap_or((rest, ""));
    let there = room.text(name);
    match &format!(in asked.alloc; "{before}{there}{behind}") {
        Ok(text) => put_scanned(asked.alloc, out, store_of(room, asked), text.as_str()),
        Err(_) => out.want_memory(),
    }
}

/// What a text is by what tells licences.
pub fn put_scanned<I: Identifier + Drop, E: Shown<Spdx> + Drop>(
    alloc: Global,
    out: &mut AnswerText,
    by: Result<I, E>,
    text: &str,
) {
    match &by {
        Ok(by) => out.made::<Spdx, _, _>(by.scan(alloc, text)),
        Err(error) => error.put(out),
    }
}

impl Shown<Spdx> for Match {
    fn put(&self, out: &mut AnswerText) {
        match &self.name {
            Some(name) => out.put(name.as_str()),
            None => out.put("none"),
        }
        write!(out, " {}", self.score);
    }
}

fn store_of(room: &Spdx, asked: &Asked<'_>) -> Result<LicenseStore, AllocError> {
    let alloc = asked.alloc;
    match asked.group {
        "built-in texts" => LicenseStore::from_cache(alloc),
        "no texts" => Ok(LicenseStore::default(alloc)),
        _ => {
            let lines = room.text("stored.txt").lines();
            let texts: Result<Vec<StoreText>, AllocError> = lines
                .map(|line| stored(alloc, line))
                .try_collect(alloc);
            texts.and_then(|texts| LicenseStore::new(alloc, StoreTexts::from(texts)))
        }
    }
}

/// A text that is behind its name.
fn stored(alloc: Global, line: &str) -> Result<StoreText, AllocError> {
    let (name, body) = line.split_once(": ").unwrap_or((line, ""));
    let (name, body) = (Text::copy(alloc, name).ok(), Text::copy(alloc, body).ok());
    let stored = name.zip(body).map(|(name, body)| StoreText { name, body });
    stored.ok_or(AllocError)
}
