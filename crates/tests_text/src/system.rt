//! The real files over a system that is made up: what a tree answers, by what the system does, and which calls it makes.
ghost use Rattle.std.specs.Prelude.{◌≤◌, length, IfSome};

use crate::trees::put_one;
use deny_text::PathBuf;
use std::alloc::{Alloc, AllocError, Global};
use std::cell::RefCell;
use std::fs::Metadata;
use std::io;
use std::io::{ErrorKind, Read};
use tests_files::tree::{first_word, number_in};
use tests_files::{AnswerText, Asked, Room, Told};
use tree_core::{FolderTree, NamesPaths, System, Tree};

/// Copies bytes to the start of a buffer; none where they are longer.
pub fn fill(bytes: &[u8], buf: &mut [u8]) -> Option<usize>
    ensures { IfSome result (λ count. count ≤ length buf.new) }
{
    if buf.len() < bytes.len() {
        return None;
    }
    buf[..bytes.len()].copy_from_slice(bytes);
    Some(bytes.len())
}

/// The error of that name.
pub fn kind_named(name: &str) -> ErrorKind {
    match name {
        "NotFound" => ErrorKind::NotFound,
        "NotADirectory" => ErrorKind::NotADirectory,
        "PermissionDenied" => ErrorKind::PermissionDenied,
        "OutOfMemory" => ErrorKind::OutOfMemory,
        "Interrupted" => ErrorKind::Interrupted,
        "TimedOut" => ErrorKind::TimedOut,
        _ => ErrorKind::Unsupported,
    }
}

/// What the system says of a path where this is: a file of a length, a folder, a link, or an error.
fn answer(state: &str) -> io::Result<Metadata> {
    let (kind, length) = first_word(state);
    match kind {
        "file" => Ok(Metadata::of_file(number_in(length) as u64)),
        "folder" => Ok(Metadata::of_dir()),
        "link" => Ok(Metadata::of_symlink(1)),
        _ => Err(io::Error::from(kind_named(kind))),
    }
}

/// What is read: bytes, and what comes behind them. A read that fails does so once.
#[derive(Drop)]
struct OpenedBytes<'w> {
    bytes: &'w [u8],
    behind: &'w [u8],
    /// The name of the error; without a letter no read fails.
    fails: &'w str,
}

impl Read for OpenedBytes<'_> {
    fn read(&mut self, buf: &mut [u8]) -> io::Result<usize> {
        let (bytes, fails) = (self.bytes, self.fails);
        self.fails = "";
        if !fails.is_empty() {
            return Err(io::Error::from(kind_named(fails)));
        }
        self.bytes = self.behind;
        self.behind = b"";
        Ok(fill(bytes, buf).unwrap_or(0))
    }
}

/// A system that is made up: a file of the text `hello`, or a folder with one entry. It answers at the paths that its words name
/// alone, and notes each call.
#[derive(Drop)]
struct MadeUp<'w> {
    alloc: Global,
    words: &'w str,
    notes: RefCell<AnswerText>,
}

impl<'w> MadeUp<'w> {
    /// What the words say under a name: `path` is the path, `name` the entry's name, `at`, `entry` and `link` what is there,
    /// `opening` and `reading` the error that it ends with, `named` the path at which the tree reads a pipe.
    fn says(&self, name: &str) -> &'w str {
        let mut words = self.words.split(", ").map(|word| first_word(word));
        match (words.find(|word| word.0 == name), name) {
            (Some((_, value)), _) => value,
            (None, "path") => "x",
            (None, "name") => "a",
            (None, "at") => "file 5",
            (None, "entry" | "link") => "file 1",
            (None, _) => "",
        }
    }

    /// What the words say under a name of the entry, if this is its path.
    fn says_of_entry(&self, path: &str, name: &str) -> &'w str {
        let rest = path.strip_prefix(self.says("path")).unwrap_or("");
        if rest.strip_prefix('/') == Some(self.says("name")) {
            self.says(name)
        } else {
            "NotFound"
        }
    }

    /// What is opened, if no error is in the way.
    fn opened(
        &self,
        error: &str,
        bytes: &'w [u8],
        behind: &'w [u8],
    ) -> io::Result<OpenedBytes<'w>> {
        if !error.is_empty() {
            return Err(io::Error::from(kind_named(error)));
        }
        Ok(OpenedBytes {
            bytes,
            behind,
            fails: self.says("reading"),
        })
    }

    fn note(&self, call: &str, path: &str) {
        if let Ok(mut notes) = self.notes.try_borrow_mut() {
            let notes = &mut *notes;
            write!(notes, "[{call} {path}]");
        }
    }

    /// Puts the calls so far.
    fn put_notes(&self, out: &mut AnswerText) {
        match self.notes.try_borrow() {
            Ok(notes) => out.put_whole(&*notes),
            Err(_) => out.put("the calls are in use"),
        }
    }
}

impl Alloc for MadeUp<'_> {
    type A = Global;

    fn alloc(&self) -> Global {
        self.alloc
    }
}

impl<'w> System for &MadeUp<'w> {
    type File = OpenedBytes<'w>;

    type Folder = OpenedBytes<'w>;

    fn open_file(&self, path: &str) -> io::Result<OpenedBytes<'w>> {
        self.note("open", path);
        let error = if path == self.says("path") {
            self.says("opening")
        } else {
            "NotFound"
        };
        self.opened(error, b"hello", b"")
    }

    fn open_folder(&self, path: &str) -> io::Result<OpenedBytes<'w>> {
        self.note("list", path);
        let (there, _) = first_word(self.says("at"));
        let error = match there {
            _ if path.strip_suffix('/') != Some(self.says("path")) => "NotFound",
            "folder" => self.says("opening"),
            "file" | "link" => "NotADirectory",
            error => error,
        };
        self.opened(error, self.says("name").as_bytes(), b"\0")
    }

    fn look(&self, path: &str) -> io::Result<Metadata> {
        self.note("look", path);
        if path == self.says("path") {
            answer(self.says("at"))
        } else {
            answer(self.says_of_entry(path, "entry"))
        }
    }

    fn look_at_link(&self, path: &str) -> io::Result<Metadata> {
        self.note("link", path);
        answer(self.says_of_entry(path, "link"))
    }
}

/// The paths at which a tree over a system reads pipes.
fn pipes(system: &MadeUp<'_>) -> Result<Vec<PathBuf>, AllocError> {
    let mut pipes = Vec::new(system.alloc);
    let path = system.says("named");
    if !path.is_empty() {
        let path = PathBuf::copy(system.alloc, path)?;
        pipes.push(path)?;
    }
    Ok(pipes)
}

/// Puts what a call at the system's path answers on a tree of its own, and how often it has failed; or, for the notes, the calls
/// that the tree made for it.
fn put_call(out: &mut AnswerText, system: &MadeUp<'_>, verb: &str, is_noted: bool) {
    let (alloc, path) = (system.alloc, system.says("path"));
    let mut answer = AnswerText::new(alloc);
    let mut tree = FolderTree::new(system);
    match pipes(system) {
        Ok(pipes) => tree.name_paths(pipes),
        Err(_) => out.want_memory(),
    }
    put_one(&mut answer, alloc, &mut tree, verb, path);
    write!(answer, " {}", tree.faults());
    if is_noted {
        system.put_notes(out);
    } else {
        out.put_whole(&answer);
    }
}

/// Puts what `read`, `list`, `is_file` and `exists` come to, or which calls they make.
fn put_calls(out: &mut AnswerText, alloc: Global, words: &str, is_noted: bool) {
    let mut front = "";
    for verb in ["read", "list", "is_file", "exists"] {
        let notes = RefCell::new(AnswerText::new(alloc));
        let system = MadeUp {
            alloc,
            words,
            notes,
        };
        out.put(front);
        put_call(out, &system, verb, is_noted);
        front = "; ";
    }
}

/// Rows of a tree over a system that is made up.
pub struct Systems;

impl Room for Systems {
    fn answer(&self, asked: &Asked<'_>, out: &mut AnswerText) -> Told {
        match asked.group {
            "errors of the system"
            | "entries of the system"
            | "lengths and pipes"
            | "paths and names"
            | "pipes that are named" => put_calls(out, asked.alloc, asked.text, false),
            "calls of the system" => put_calls(out, asked.alloc, asked.text, true),
            _ => return Told::NoSuchGroup,
        }
        Told::Answer
    }
}
