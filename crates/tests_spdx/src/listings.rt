//! Files of an organisation's own catalogue, and folders of its texts.
use crate::terms::pair_of;
use crate::texts::{Spdx, put_scanned};
use spdx_own_names::{FileCatalog, ListingError, StoreError, StoreFault, read_catalog, read_store};
use spdx_terms::catalog::{Catalog, LicenseEntry, Table};
use std::alloc::{AllocError, Global};
use tests_files::tree::{fail_call, first_word};
use tests_files::{AnswerText, Asked, Shown, let_go};
use tree_core::MemTree;

/// A text's bytes, with FF in place of each `?`.
fn bytes_of(alloc: Global, text: &str) -> Result<Vec<u8>, AllocError> {
    let bytes = text.bytes();
    bytes
        .map(|byte| if byte == b'?' { 0xff } else { byte })
        .collect(alloc)
}

/// Puts what a catalogue has of a licence, or this where it has nothing.
pub fn put_license(out: &mut AnswerText, found: Option<LicenseEntry>, or: &str) {
    let Some(entry) = found else {
        return out.put(or);
    };
    write!(out, "family {}, rank {}", entry.family, entry.rank);
    out.put(if entry.later { ", later" } else { "" });
    out.put(if entry.deprecated { ", deprecated" } else { "" });
    out.put(if entry.gnu { ", gnu" } else { "" });
}

impl Shown<Spdx> for ListingError {
    fn put(&self, out: &mut AnswerText) {
        match self {
            ListingError::Syntax { line } => write!(out, "line {line}"),
            ListingError::Memory => out.want_memory(),
        }
    }
}

/// Puts what a file's catalogue knows of what is behind it: of the lines of the built-in one for a file of examples, else of a text.
pub fn put(asked: &Asked<'_>, out: &mut AnswerText, file: &str, behind: &str) {
    match read(asked.alloc, file) {
        Ok(catalog) => {
            if asked.group == "catalogue of an example" {
                put_list(out, &catalog, file, behind);
            } else {
                put_known(out, &catalog, behind);
            }
            let_go(catalog);
        }
        Err(error) => error.put(out),
    }
}

fn read(alloc: Global, file: &str) -> Result<FileCatalog, ListingError> {
    match bytes_of(alloc, file) {
        Ok(bytes) => read_catalog(alloc, &bytes),
        Err(_) => Err(ListingError::Memory),
    }
}

/// What is known of a text as a licence and as an exception, and what the text begins with; without a text that there is a catalogue.
fn put_known(out: &mut AnswerText, catalog: &FileCatalog, text: &str) {
    if text.is_empty() {
        return out.put("a catalogue");
    }
    put_license(out, catalog.license(text), "no licence");
    out.put(if catalog.exception(text) {
        "; an exception"
    } else {
        "; no exception"
    });
    if let Some(found) = catalog.imprecise(text) {
        write!(out, "; begins with {} for {}", found.len, found.name);
    }
}

/// How many lines of a file begin so.
fn count_lines(file: &str, start: &str) -> usize {
    file.lines().filter(|line| line.starts_with(start)).count()
}

/// Whether a catalogue and the built-in one begin a text with all of it, and for the same licence.
fn begin_alike(listing: &FileCatalog, text: &str) -> bool {
    let both = Table.imprecise(text).zip(listing.imprecise(text));
    both.is_some_and(|(found, own)| {
        found.len == text.len() && own.len == text.len() && found.name == own.name
    })
}

/// Whether the built-in catalogue has what a line lists, and a catalogue tells the same of it.
fn is_as_built_in(listing: &FileCatalog, line: &str) -> bool {
    let (kind, rest) = first_word(line);
    let (name, behind) = first_word(rest);
    match kind {
        "license" => Table.license(name).is_some() && Table.license(name) == listing.license(name),
        "exception" => Table.exception(name) && listing.exception(name),
        "imprecise" => begin_alike(listing, behind),
        _ => true,
    }
}

/// How much a file lists, and whether its catalogue tells of the lines of the built-in one as that does.
fn put_list(out: &mut AnswerText, listing: &FileCatalog, file: &str, built_in: &str) {
    let licenses = count_lines(file, "license ");
    let exceptions = count_lines(file, "exception ");
    let texts = count_lines(file, "imprecise ");
    write!(
        out,
        "{licenses} licences, {exceptions} exceptions, {texts} imprecise texts"
    );
    if !built_in.lines().all(|line| is_as_built_in(listing, line)) {
        out.put("; not as built in");
    }
}

/// Puts what a row says into a tree: `/w/s` holds the files that are written `NAME: TEXT`, with `; ` between; `! N` says that a call
/// fails. Returns whether all could be put.
fn put_files(alloc: Global, tree: &mut MemTree, files: &str) -> bool {
    files.split("; ").all(|file| match file.split_once(": ") {
        Some((name, text)) => put_file(alloc, tree, name, text),
        None => fail_call(tree, file.strip_prefix("! ").unwrap_or("0")),
    })
}

fn put_file(alloc: Global, tree: &mut MemTree, name: &str, text: &str) -> bool {
    let path = format!(in alloc; "/w/{name}").ok();
    let file = path.zip(bytes_of(alloc, text).ok());
    file.is_some_and(|(path, bytes)| tree.put(path.as_str(), &bytes).is_ok())
}

impl Shown<Spdx> for StoreError {
    fn put(&self, out: &mut AnswerText) {
        match self {
            StoreError::Fault(StoreFault::Failed { before, after }) => write!(
                out,
                "failed {before} {after}"
            ),
            StoreError::Fault(StoreFault::Absent) => out.put("absent"),
            StoreError::Fault(StoreFault::NotFolder) => out.put("no folder"),
            StoreError::Fault(StoreFault::NotUtf8 { name }) => { write!(out, "not UTF-8: {name}") }
            StoreError::Memory => out.want_memory(),
        }
    }
}

/// What a text is by the texts of a folder.
pub fn put_folder(asked: &Asked<'_>, out: &mut AnswerText) {
    let (files, text) = pair_of(asked.text);
    let mut tree = MemTree::new(asked.alloc);
    out.tries(put_files(asked.alloc, &mut tree, files));
    let store = read_store(asked.alloc, &mut tree, "/w/s");
    put_scanned(asked.alloc, out, store, text);
    let_go(tree);
}
